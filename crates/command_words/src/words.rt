//! The words of the command line, read by `clap`.

ghost use Rattle.std.specs.Prelude.{◌≡◌, ◌≢◌, ℕ, ◌+◌, ◌-◌, ◌*◌, ◌≤◌, ◌<◌, ◌==◌, List, [], ◌∷◌, length, map, string_bytes, ℤ, IfOk, IfSome, IfNone, true, false, option_map, codes};
ghost use Rattle.std.specs.List.{list_all};
ghost use Rattle.clap.specs.Words.{app_of, fault_of, rule_of, with_subcommand};
ghost use Rattle.clap.specs.declared.builder.command.Command.TheViews.{out-Command};
ghost use Rattle.command_words.specs.Words as spec;
ghost use Rattle.command_words.specs.Words.{AreWords, IsCommand, Command as PureCommand, Text, IsNumber, IsValue, IsPiece, ArePieces, IsList, IsGivenOr, HasOneCommand, value_from, max_inputs};
ghost use Rattle.command_words.specs.Commands.{FitsCommand, command_of};
ghost use Rattle.command_words.specs.steps.WordsView.{test_of, IsRun, IsNegative, Encloses};
ghost use Rattle.command_words.specs.steps.WordsLine.{Gives, GivesBudget, GivesEdges, GivesWorkers, IsTaken, bundle_app, check_app, edit_app, line_app, listed, name_of, option_rule, recheck_app, replay_app, sweep_app, texts_in, top_app, word_rule, workload_app};

use clap::error::ErrorKind;
use clap::{Arg, ArgAction, ArgMatches, Command as Line};
use std::alloc::{AllocError, Global};

// The limits of `specs/Words`, which the clauses cite.
const MAX_INPUTS: usize = 10_000;

const MAX_DIGITS: usize = 10;

const MAX_FUEL: u64 = 1_000_000_000;

const DEFAULT_FUEL: u64 = 1_000_000;

const MAX_BUDGET: u64 = 20_000;

const DEFAULT_BUDGET: u64 = 2000;

const MAX_WORKERS: u64 = 16;

const DEFAULT_WORKERS: u64 = 4;

const MAX_NUMBER: u64 = 60;

const MAX_ASSERTS: u64 = 64;

const MAX_EDGES: u64 = 5000;

const DEFAULT_EDGES: u64 = 2000;

const MAX_OLD_LENGTH: u64 = 65_536;

/// A command. A budget is from 1 to `MAX_BUDGET`, and workers are from 1 to `MAX_WORKERS`.
#[derive(Drop)]
pub enum Command {
    Check {
        budget: u32,
        workers: u32,
    },
    /// The fuel is from 1 to `MAX_FUEL`, and the list has at most `MAX_INPUTS` values.
    Replay {
        fuel: u64,
        list: Vec<i64>,
    },
    /// The number is from 1 to `MAX_NUMBER`.
    Workload {
        number: u32,
        budget: u32,
        workers: u32,
    },
    /// The number of an assertion is from 1 to `MAX_ASSERTS`.
    Bundle {
        number: u32,
        budget: u32,
    },
    Recheck,
    /// The edges are from 1 to `MAX_EDGES`.
    Sweep {
        edges: u32,
    },
    /// The old source has from 1 to `MAX_OLD_LENGTH` bytes.
    Edit {
        old_length: u32,
        budget: u32,
        workers: u32,
    },
}

/// A kind of bytes.
#[derive(Clone, Copy, PartialEq, Eq, Debug)]
enum Class {
    Space,
    /// Not a space.
    OfWord,
    /// Not a comma.
    OfPiece,
}

fn is_in(class: Class, byte: u8) -> bool
    ensures { result ≡ test_of class byte }
{
    match class {
        Class::Space => byte == b' ',
        Class::OfWord => byte != b' ',
        Class::OfPiece => byte != b',',
    }
}

/// How many bytes of a class a text begins with.
fn run_len(class: Class, text: &[u8]) -> usize
    ensures { IsRun (test_of class) text.now result }
{
    let mut len = 0;
    while len < text.len() && is_in(class, text[len]) {
        len += 1;
    }
    len
}

fn is_digit(byte: u8) -> bool
    ensures { result ≡ spec.is_digit byte }
{
    b'0' <= byte && byte <= b'9'
}

fn are_digits(text: &[u8]) -> bool
    ensures { result ≡ list_all spec.is_digit text.now }
{
    text.iter().all(|b| is_digit(*b))
}

/// Whether a text is `0`, or digits without a leading 0.
fn is_numeral(text: &[u8]) -> bool
    ensures { result ≡ spec.is_numeral text.now }
{
    match text {
        [] => false,
        [only] => is_digit(*only),
        [first, rest @ ..] => b'1' <= *first && *first <= b'9' && are_digits(rest),
    }
}

/// The value with one more digit, or none where it is above `high`.
fn with_digit(high: u64, value: u64, digit: u8) -> Option<u64>
    ensures some { IfSome result (λ n. (n ≡ 10 * value + (digit - 48)) × (n ≤ high)) }
    ensures none { IfNone result (high < 10 * value + (digit - 48)) }
{
    let sum = value
        .checked_mul(10)?
        .checked_add(u64::from(digit.saturating_sub(b'0')))?;
    if sum <= high { Some(sum) } else { None }
}

/// The value of a numeral, or none where it is above `high`.
fn numeral(text: &[u8], high: u64) -> Option<u64>
    ensures some { IfSome result (λ n. (spec.is_numeral text.now ≡ true)
        × (n ≡ value_from 0 text.now)
        × (n ≤ high)) }
    ensures none { IfNone result (spec.is_numeral text.now ≡ true → high < value_from 0 text.now) }
{
    if !is_numeral(text) {
        return None;
    }
    let mut value = 0;
    for digit in text {
        value = with_digit(high, value, *digit)?;
    }
    Some(value)
}

/// A number from `low` to `high`, of at most `MAX_DIGITS` digits.
fn number(text: &[u8], low: u64, high: u64) -> Option<u64>
    ensures some { IfSome result (λ n. IsNumber low high text.now n) }
    ensures none { IfNone result ((n : ℕ) → IsNumber low high text.now n → ⊥) }
{
    if text.len() > MAX_DIGITS {
        return None;
    }
    let value = numeral(text, high)?;
    if low <= value { Some(value) } else { None }
}

/// The value of the digits after a `-`, from -2^63 to -1.
fn negative(digits: &[u8]) -> Option<i64>
    ensures some { IfSome result (λ z. IsNegative digits.now z) }
    ensures none { IfNone result ((z : ℤ) → IsNegative digits.now z → ⊥) }
{
    if let [b'0'] = digits {
        return None;
    }
    let size = numeral(digits, 1 << 63)?;
    if size == 1 << 63 {
        Some(i64::MIN)
    } else {
        Some(-(size as i64))
    }
}

/// The value of a text, from -2^63 to 2^63 - 1.
fn value(text: &[u8]) -> Option<i64>
    ensures some { IfSome result (λ z. IsValue text.now z) }
    ensures none { IfNone result ((z : ℤ) → IsValue text.now z → ⊥) }
{
    match text {
        [b'-', digits @ ..] => negative(digits),
        _ => {
            let size = numeral(text, i64::MAX as u64)?;
            Some(size as i64)
        }
    }
}

/// Whether a text has nothing but spaces.
fn is_blank(text: &[u8]) -> bool
    ensures { result ≡ list_all (λ b. b == 32) text.now }
{
    text.iter().all(|b| *b == b' ')
}

/// The value in a text that may have spaces before and after it.
fn piece(text: &[u8]) -> Option<i64>
    ensures some { IfSome result (λ z. IsPiece text.now z) }
    ensures none { IfNone result ((z : ℤ) → IsPiece text.now z → ⊥) }
{
    let rest = &text[run_len(Class::Space, text)..];
    let len = run_len(Class::OfWord, rest);
    if is_blank(&rest[len..]) {
        value(&rest[..len])
    } else {
        None
    }
}

/// The values of pieces that are parted by commas, or none where one is no value or there are more
/// than `MAX_INPUTS`.
fn pieces(alloc: Global, text: &[u8]) -> Result<Option<Vec<i64>>, AllocError>
    ensures some { IfOk result
        (λ o. IfSome o (λ v. ArePieces text.now v.items × (length v.items ≤ max_inputs))) }
    ensures none { IfOk result
        (λ o. IfNone o ((zs : List ℤ) → ArePieces text.now zs → length zs ≤ max_inputs → ⊥)) }
{
    let mut values = Vec::new(alloc);
    let mut rest = text;
    while values.len() < MAX_INPUTS {
        let len = run_len(Class::OfPiece, rest);
        let Some(z) = piece(&rest[..len]) else {
            return Ok(None)
        };
        values.push(z)?;
        match &rest[len..] {
            [] => return Ok(Some(values)),
            [_, more @ ..] => rest = more,
        }
    }
    Ok(None)
}

/// The text between `[` and `]`.
fn enclosed(text: &[u8]) -> Option<&[u8]>
    ensures some { IfSome result (λ inner. Encloses text.now inner.now) }
    ensures none { IfNone result ((inner : List ℕ) → Encloses text.now inner → ⊥) }
{
    text.strip_prefix(b"[")?.strip_suffix(b"]")
}

/// The values of a list, at most `MAX_INPUTS`.
fn list(alloc: Global, text: &[u8]) -> Result<Option<Vec<i64>>, AllocError>
    ensures some { IfOk result (λ o. IfSome o (λ v. IsList text.now v.items)) }
    ensures none { IfOk result (λ o. IfNone o ((zs : List ℤ) → IsList text.now zs → ⊥)) }
{
    let Some(inner) = enclosed(text) else {
        return Ok(None)
    };
    if is_blank(inner) {
        Ok(Some(Vec::new(alloc)))
    } else {
        pieces(alloc, inner)
    }
}

/// The option `--name` with a text.
fn option<'a>(alloc: Global, name: &'a str) -> Arg<'a>
    ensures rule { rule_of result ≡ option_rule name.entry.now }
    ensures own { result.global ≡ false }
{
    Arg::new(alloc, name).long(name).action(ArgAction::Set)
}

/// A word that is no option.
fn word<'a>(alloc: Global, name: &'a str) -> Arg<'a>
    ensures rule { rule_of result ≡ word_rule name.entry.now }
    ensures own { result.global ≡ false }
{
    Arg::new(alloc, name).action(ArgAction::Set)
}

/// The line of a check.
fn check_line<'a>(alloc: Global) -> Result<Line<'a>, AllocError>
    ensures { IfOk result (λ l. (app_of l ≡ check_app) × ((out-Command l).has_globals ≡ false)) }
{
    Line::new(alloc, "check")
        .arg(option(alloc, "budget"))?
        .arg(option(alloc, "workers"))
}

/// The line of a replay.
fn replay_line<'a>(alloc: Global) -> Result<Line<'a>, AllocError>
    ensures { IfOk result (λ l. (app_of l ≡ replay_app) × ((out-Command l).has_globals ≡ false)) }
{
    Line::new(alloc, "replay")
        .arg(option(alloc, "fuel"))?
        .arg(word(alloc, "list"))
}

/// The line of a workload.
fn workload_line<'a>(alloc: Global) -> Result<Line<'a>, AllocError>
    ensures { IfOk result (λ l. (app_of l ≡ workload_app) × ((out-Command l).has_globals ≡ false)) }
{
    Line::new(alloc, "workload")
        .arg(option(alloc, "budget"))?
        .arg(option(alloc, "workers"))?
        .arg(word(alloc, "number"))
}

/// The line of a bundle.
fn bundle_line<'a>(alloc: Global) -> Result<Line<'a>, AllocError>
    ensures { IfOk result (λ l. (app_of l ≡ bundle_app) × ((out-Command l).has_globals ≡ false)) }
{
    Line::new(alloc, "bundle")
        .arg(option(alloc, "budget"))?
        .arg(word(alloc, "number"))
}

/// The line of a recheck.
fn recheck_line<'a>(alloc: Global) -> Line<'a>
    ensures { (app_of result ≡ recheck_app) × ((out-Command result).has_globals ≡ false) }
{
    Line::new(alloc, "recheck")
}

/// The line of a sweep.
fn sweep_line<'a>(alloc: Global) -> Result<Line<'a>, AllocError>
    ensures { IfOk result (λ l. (app_of l ≡ sweep_app) × ((out-Command l).has_globals ≡ false)) }
{
    Line::new(alloc, "sweep").arg(option(alloc, "edges"))
}

/// The line of an edit.
fn edit_line<'a>(alloc: Global) -> Result<Line<'a>, AllocError>
    ensures { IfOk result (λ l. (app_of l ≡ edit_app) × ((out-Command l).has_globals ≡ false)) }
{
    Line::new(alloc, "edit")
        .arg(option(alloc, "budget"))?
        .arg(option(alloc, "workers"))?
        .arg(word(alloc, "length"))
}

/// A line without commands, and with no flag of `clap`'s own.
fn bare_line<'a>(alloc: Global) -> Line<'a>
    ensures { app_of result ≡ top_app }
{
    Line::new(alloc, "smash")
        .no_binary_name(true)
        .disable_help_flag(true)
        .disable_help_subcommand(true)
        .disable_version_flag(true)
        .subcommand_required(true)
}

/// The line of a check, a replay or a workload.
fn short_line<'a>(alloc: Global) -> Result<Line<'a>, AllocError>
    ensures { IfOk result (λ l. app_of l ≡ with_subcommand (with_subcommand
        (with_subcommand top_app check_app.top) replay_app.top) workload_app.top) }
{
    bare_line(alloc)
        .subcommand(check_line(alloc)?)?
        .subcommand(replay_line(alloc)?)?
        .subcommand(workload_line(alloc)?)
}

/// The line of any command.
fn line<'a>(alloc: Global) -> Result<Line<'a>, AllocError>
    ensures { IfOk result (λ l. app_of l ≡ line_app) }
{
    short_line(alloc)?
        .subcommand(bundle_line(alloc)?)?
        .subcommand(recheck_line(alloc))?
        .subcommand(sweep_line(alloc)?)?
        .subcommand(edit_line(alloc)?)
}

/// What the words give by the command line, or none where they don't fit it.
fn matches<'a>(alloc: Global, words: &'a [String]) -> Result<Option<ArgMatches<'a>>, AllocError>
    ensures some { IfOk result
        (λ o. IfSome o (λ m. IsTaken (map string_bytes words.entry.now) m)) }
    ensures none { IfOk result
        (λ o. IfNone o (fault_of line_app (map string_bytes words.entry.now) ≢ [])) }
{
    match line(alloc)?.try_get_matches_from(words) {
        Ok(matches) => Ok(Some(matches)),
        Err(error) if error.kind() == ErrorKind::OutOfMemory => Err(AllocError),
        Err(_) => Ok(None),
    }
}

/// The number that a text gives, from 1 to `high`, or the default where there is none.
fn number_or(default: u64, high: u64, text: Option<&str>) -> Option<u64>
    ensures some { IfSome result
        (λ n. IsGivenOr default high (listed (option_map (λ t. t.now) text.entry)) n) }
    ensures none { IfNone result
        ((n : ℕ) → IsGivenOr default high (listed (option_map (λ t. t.now) text.entry)) n → ⊥) }
{
    match text {
        Some(text) => number(text.as_bytes(), 1, high),
        None => Some(default),
    }
}

fn budget(given: &ArgMatches) -> Option<u32>
    ensures some { IfSome result (λ n. GivesBudget (texts_in given.now) n) }
    ensures none { IfNone result ((n : ℕ) → GivesBudget (texts_in given.now) n → ⊥) }
{
    let budget = number_or(DEFAULT_BUDGET, MAX_BUDGET, given.get_str("budget"))?;
    Some(budget as u32)
}

fn workers(given: &ArgMatches) -> Option<u32>
    ensures some { IfSome result (λ n. GivesWorkers (texts_in given.now) n) }
    ensures none { IfNone result ((n : ℕ) → GivesWorkers (texts_in given.now) n → ⊥) }
{
    let workers = number_or(DEFAULT_WORKERS, MAX_WORKERS, given.get_str("workers"))?;
    Some(workers as u32)
}

fn edges(given: &ArgMatches) -> Option<u32>
    ensures some { IfSome result (λ n. GivesEdges (texts_in given.now) n) }
    ensures none { IfNone result ((n : ℕ) → GivesEdges (texts_in given.now) n → ⊥) }
{
    let edges = number_or(DEFAULT_EDGES, MAX_EDGES, given.get_str("edges"))?;
    Some(edges as u32)
}

fn check(given: &ArgMatches) -> Option<Command>
    ensures some { IfSome result (λ c. (name_of (command_of c) ≡ codes "check")
        × Gives (command_of c) (texts_in given.now)) }
    ensures none { IfNone result ((c : PureCommand) → name_of c ≡ codes "check" →
        Gives c (texts_in given.now) → ⊥) }
{
    let budget = budget(given)?;
    let workers = workers(given)?;
    Some(Command::Check { budget, workers })
}

fn replay(alloc: Global, given: &ArgMatches) -> Result<Option<Command>, AllocError>
    ensures some { IfOk result (λ o. IfSome o (λ c. (name_of (command_of c) ≡ codes "replay")
        × Gives (command_of c) (texts_in given.now))) }
    ensures none { IfOk result (λ o. IfNone o ((c : PureCommand) → name_of c ≡ codes "replay" →
        Gives c (texts_in given.now) → ⊥)) }
{
    let Some(fuel) = number_or(DEFAULT_FUEL, MAX_FUEL, given.get_str("fuel")) else {
        return Ok(None)
    };
    let Some(text) = given.get_str("list") else {
        return Ok(None)
    };
    let Some(list) = list(alloc, text.as_bytes())? else {
        return Ok(None)
    };
    Ok(Some(Command::Replay { fuel, list }))
}

fn workload(given: &ArgMatches) -> Option<Command>
    ensures some { IfSome result (λ c. (name_of (command_of c) ≡ codes "workload")
        × Gives (command_of c) (texts_in given.now)) }
    ensures none { IfNone result ((c : PureCommand) → name_of c ≡ codes "workload" →
        Gives c (texts_in given.now) → ⊥) }
{
    let text = given.get_str("number")?;
    let number = number(text.as_bytes(), 1, MAX_NUMBER)?;
    let budget = budget(given)?;
    let workers = workers(given)?;
    Some(Command::Workload {
        number: number as u32,
        budget,
        workers,
    })
}

fn bundle(given: &ArgMatches) -> Option<Command>
    ensures some { IfSome result (λ c. (name_of (command_of c) ≡ codes "bundle")
        × Gives (command_of c) (texts_in given.now)) }
    ensures none { IfNone result ((c : PureCommand) → name_of c ≡ codes "bundle" →
        Gives c (texts_in given.now) → ⊥) }
{
    let text = given.get_str("number")?;
    let number = number(text.as_bytes(), 1, MAX_ASSERTS)?;
    let budget = budget(given)?;
    Some(Command::Bundle {
        number: number as u32,
        budget,
    })
}

fn sweep(given: &ArgMatches) -> Option<Command>
    ensures some { IfSome result (λ c. (name_of (command_of c) ≡ codes "sweep")
        × Gives (command_of c) (texts_in given.now)) }
    ensures none { IfNone result ((c : PureCommand) → name_of c ≡ codes "sweep" →
        Gives c (texts_in given.now) → ⊥) }
{
    let edges = edges(given)?;
    Some(Command::Sweep { edges })
}

fn edit(given: &ArgMatches) -> Option<Command>
    ensures some { IfSome result (λ c. (name_of (command_of c) ≡ codes "edit")
        × Gives (command_of c) (texts_in given.now)) }
    ensures none { IfNone result ((c : PureCommand) → name_of c ≡ codes "edit" →
        Gives c (texts_in given.now) → ⊥) }
{
    let text = given.get_str("length")?;
    let old_length = number(text.as_bytes(), 1, MAX_OLD_LENGTH)?;
    let budget = budget(given)?;
    let workers = workers(given)?;
    Some(Command::Edit {
        old_length: old_length as u32,
        budget,
        workers,
    })
}

/// The command of this name that is given, if it takes no list.
fn plain_command(name: &str, given: &ArgMatches) -> Option<Command>
    ensures some { IfSome result (λ c. (name_of (command_of c) ≡ name.now)
        × Gives (command_of c) (texts_in given.now)) }
    ensures none { IfNone result ((c : PureCommand) → name_of c ≡ name.now →
        (name.now ≡ codes "replay" → ⊥) → Gives c (texts_in given.now) → ⊥) }
{
    if name == "check" {
        check(given)
    } else if name == "workload" {
        workload(given)
    } else if name == "bundle" {
        bundle(given)
    } else if name == "recheck" {
        Some(Command::Recheck)
    } else if name == "sweep" {
        sweep(given)
    } else if name == "edit" {
        edit(given)
    } else {
        None
    }
}

/// The command that matches are of, if they are of one.
fn command_in(alloc: Global, matches: &ArgMatches) -> Result<Option<Command>, AllocError>
    ensures some { IfOk result (λ o. IfSome o (λ c. (words : List Text) →
        IsTaken words matches.now → AreWords words (command_of c))) }
    ensures none { IfOk result (λ o. IfNone o ((words : List Text) → IsTaken words matches.now →
        (c : PureCommand) → AreWords words c → ⊥)) }
{
    let Some((name, given)) = matches.subcommand() else {
        return Ok(None)
    };
    if name == "replay" {
        replay(alloc, given)
    } else {
        Ok(plain_command(name, given))
    }
}

/// The command that words are, if they are one.
pub fn command_from(alloc: Global, words: &[String]) -> Result<Option<Command>, AllocError>
    ensures some { IfOk result (λ c. IfSome c (λ given. IsCommand words.now (command_of given))) }
    ensures none { IfOk result (λ c. IfNone c ((given : PureCommand) → IsCommand words.now given →
        ⊥)) }
    ensures fits { IfOk result (λ c. IfSome c (λ given. FitsCommand (command_of given))) }
{
    match matches(alloc, words)? {
        Some(matches) => command_in(alloc, &matches),
        None => Ok(None),
    }
}

/// Words are at most one command.
pub fn one_command()
    ensures { HasOneCommand }
{}
