//! Rows of which each list of coefficients stands once, with its greatest constant.

ghost use Rattle.std.specs.Prelude.{◌≡◌, ◌<◌, ◌≤◌, ◌^◌, ℕ, ℤ, List, [], ◌++◌, length, slice_index_or, slice_set, replicate, IfOk, OnOk, OnErr, MatchOption};
ghost use Rattle.linear_formula.specs.steps.Order.{AllWithin};
ghost use Rattle.lia_solver.specs.steps.Entries.{Entry, IsAdded, first_of};
ghost use Rattle.lia_solver.specs.steps.Buckets.{sign_code, hash_of, chain_of};
ghost use Rattle.lia_solver.specs.steps.Lines.{IsChained, AreInPool, IsChainedAnew, heads_of, parts_at, joined_line};

use linear_formula::error::OutOfMemory;
use std::alloc::{AllocError, Global};
use std::marker::Model;

/// How many chains the rows are in at the start, by their coefficients: few enough to clear at
/// once, and to stand in the table itself.
const FEW: usize = 16;

/// How many chains there are at most.
const MANY: usize = 4096;

/// With this many rows a chain there are `GROWTH` times as many chains.
const FULL: usize = 4;

const GROWTH: usize = 16;

/// Beyond all columns.
const NO_COLUMN: u64 = 1 << 32;

/// How a row follows.
#[derive(Clone, Copy)]
pub enum Origin {
    /// The row has this number among those of its branch.
    Given(u32),
    Made(Making),
}

/// The places of two rows with their multipliers, and what their sum was divided by.
#[derive(Clone, Copy)]
pub struct Making {
    pub upper: usize,
    pub upper_multiple: i64,
    pub lower: usize,
    pub lower_multiple: i64,
    pub divide: i64,
}

/// A row whose coefficients lie from `start` to `end`.
#[derive(Clone, Copy)]
struct Line {
    start: usize,
    end: usize,
    constant: i128,
    least: i128,
    origin: Origin,
    /// One more than the place of the row before it in its chain, 0 where there is none.
    before: u32,
    /// Of the coefficients.
    hash: u32,
    /// The first column that is named, or `NO_COLUMN`.
    first: u64,
}

/// Rows by their coefficients. With each of them the greatest constant stands, and the least one
/// that was added with them.
#[derive(Drop)]
pub struct Table {
    parts: Vec<(u32, i128)>,
    lines: Vec<Line>,
    /// One more than the place of the last row of each chain, 0 where there is none.
    few: [u32; FEW],
    /// The same once there are more chains.
    many: Vec<u32>,
    /// From this many rows on there are more chains.
    full: usize,
}

impl Model for Table {
    ghost use Rattle.std.specs.Prelude.{List};
    ghost use Rattle.lia_solver.specs.steps.Entries.{Entry};
    ghost use Rattle.lia_solver.specs.steps.Lines.{entries_of, heads_of, AreLines};

    ghost Value = { List Entry };

    ghost view = { λ t. entries_of t.parts.items t.lines.items };

    ghost invariant = { λ t. AreLines t.parts.items t.lines.items (heads_of t.few t.many.items) };
}

fn sign_code(coefficient: i128) -> u64
    ensures code { result ≡ sign_code coefficient }
    ensures bound { result ≤ 131 }
{
    if coefficient < 0 { 131 } else { 0 }
}

/// A hash of these coefficients.
fn hash_of(parts: &[(u32, i128)]) -> u32
    requires { AllWithin parts.now }
    ensures { result ≡ hash_of parts.now }
{
    let mut hash: u64 = 0;
    for (column, coefficient) in parts {
        let size = coefficient.unsigned_abs() as u64;
        let code = 101 * u64::from(*column) + 7 * size + sign_code(*coefficient);
        hash = (hash + code) % 4_294_967_296 * 2_654_435_761 % 4_294_967_296;
    }
    hash as u32
}

/// The first column that the coefficients name, or one beyond all columns.
fn first_of(parts: &[(u32, i128)]) -> u64
    ensures { result ≡ first_of parts.now }
{
    match parts.first() {
        Some((column, _)) => u64::from(*column),
        None => NO_COLUMN,
    }
}

/// The chain of a number, by its leading bits.
fn chain_of(hash: u32, chains: usize) -> usize
    requires some { 0 < chains }
    requires limit { chains ≤ 65536 }
    ensures value { result ≡ chain_of chains hash }
    ensures bound { result < chains }
{
    hash as usize * chains / 4_294_967_296
}

/// The heads of the chains in use.
fn heads_of<'a>(few: &'a [u32; FEW], many: &'a [u32]) -> &'a [u32]
    ensures { result.now ≡ heads_of few.now many.now }
{
    if many.is_empty() { few } else { many }
}

fn set_head(few: &mut [u32; FEW], many: &mut Vec<u32>, chain: usize, number: u32)
    requires { chain < length (heads_of few.old many.old.items) }
    ensures { heads_of few.new many.new.items
        ≡ slice_set (heads_of few.old many.old.items) chain number }
{
    if many.is_empty() {
        few[chain] = number;
        return;
    }
    many[chain] = number;
}

/// The place of the row with these coefficients in its chain, one of `chains`, of which `head` is
/// the head.
fn find(
    pool: &[(u32, i128)],
    lines: &[Line],
    chains: usize,
    head: u32,
    hash: u32,
    parts: &[(u32, i128)],
) -> Option<usize>
    requires chained { IsChained chains pool.now lines.now head parts.now }
    requires hash { hash ≡ hash_of parts.now }
    ensures { MatchOption result
        ((i : ℕ) → i < length lines.now → parts_at pool.now lines.now i ≡ parts.now → ⊥)
        (λ i. (i < length lines.now) × (parts_at pool.now lines.now i ≡ parts.now)) }
{
    let _ = chains;
    let mut past = head as usize;
    while past > 0 {
        let line = &lines[past - 1];
        if line.hash == hash && &pool[line.start..line.end] == parts {
            return Some(past - 1);
        }
        past = line.before as usize;
    }
    None
}

/// Puts lines into chains that have no line yet.
fn chain(lines: &mut [Line], heads: &mut [u32])
    requires some { 0 < length heads.old }
    requires limit { length heads.old ≤ 65536 }
    requires numbers { length lines.old < 2 ^ 32 }
    requires none { heads.old ≡ replicate (length heads.old) 0 }
    ensures count { length heads.new ≡ length heads.old }
    ensures chained { (pool : List (ℕ × ℤ)) → AreInPool pool lines.old →
        IsChainedAnew pool lines.old lines.new heads.new }
{
    for place in 0..lines.len() {
        let line = &mut lines[place];
        let chain = chain_of(line.hash, heads.len());
        line.before = heads[chain];
        heads[chain] = place as u32 + 1;
    }
}

/// Puts coefficients after the others. Most rows have a single one, for which no block is copied.
fn append(pool: &mut Vec<(u32, i128)>, parts: &[(u32, i128)]) -> Result<(), OutOfMemory>
    ensures items { OnOk result (pool.new.items ≡ pool.old.items ++ parts.now) }
    ensures kept { OnErr result (pool.new.items ≡ pool.old.items) }
{
    if parts.len() == 1 {
        pool.push(parts[0])?;
        return Ok(());
    }
    pool.extend_from_slice(parts)
}

/// Joins one more row of its coefficients to the line: the stronger one of both stands.
fn join(line: &mut Line, constant: i128, origin: Origin)
    ensures { line.new ≡ joined_line line.old constant origin }
{
    line.least = line.least.min(constant);
    if line.constant < constant {
        line.constant = constant;
        line.origin = origin;
    }
}

impl Table {
    pub fn new(alloc: Global, parts: usize, lines: usize) -> Result<Table, OutOfMemory>
        ensures { IfOk result (λ t. t ≡ []) }
    {
        let parts = Vec::with_capacity(alloc, parts)?;
        let lines = Vec::with_capacity(alloc, lines)?;
        Ok(Table {
            parts,
            lines,
            few: [0; FEW],
            many: Vec::new(alloc),
            full: FULL * FEW,
        })
    }

    /// Takes all rows out.
    pub fn clear(&mut self)
        ensures { self.new ≡ [] }
    {
        if self.lines.is_empty() {
            return;
        }
        self.parts.clear();
        self.lines.clear();
        self.few = [0; FEW];
        self.many.clear();
        self.full = FULL * FEW;
    }

    pub fn len(&self) -> usize
        ensures { result ≡ length self.now }
    {
        self.lines.len()
    }

    /// The coefficients of the row at a place.
    pub fn parts(&self, place: usize) -> &[(u32, i128)]
        requires { place < length self.now }
        ensures { (e : Entry) → result.now ≡ (slice_index_or self.now place e).sum.parts }
    {
        let line = &self.lines[place];
        &self.parts[line.start..line.end]
    }

    /// The first column that the row at a place names, or one beyond all columns.
    pub fn first(&self, place: usize) -> u64
        requires { place < length self.now }
        ensures { (e : Entry) → result ≡ first_of (slice_index_or self.now place e).sum.parts }
    {
        self.lines[place].first
    }

    pub fn constant(&self, place: usize) -> i128
        requires { place < length self.now }
        ensures { (e : Entry) → result ≡ (slice_index_or self.now place e).sum.constant }
    {
        self.lines[place].constant
    }

    /// The least constant that was added with the coefficients.
    pub fn least(&self, place: usize) -> i128
        requires { place < length self.now }
        ensures { (e : Entry) → result ≡ (slice_index_or self.now place e).least }
    {
        self.lines[place].least
    }

    pub fn origin(&self, place: usize) -> Origin
        requires { place < length self.now }
        ensures { (e : Entry) → result ≡ (slice_index_or self.now place e).origin }
    {
        self.lines[place].origin
    }

    /// The place of the row with these coefficients.
    pub fn place_of(&self, parts: &[(u32, i128)]) -> Option<usize>
        requires { AllWithin parts.now }
        ensures { MatchOption result
            ((i : ℕ) (e : Entry) → i < length self.now →
            (slice_index_or self.now i e).sum.parts ≡ parts.now → ⊥)
            (λ i. (i < length self.now)
            × ((e : Entry) → (slice_index_or self.now i e).sum.parts ≡ parts.now)) }
    {
        let hash = hash_of(parts);
        let heads = heads_of(&self.few, &self.many);
        let chains = heads.len();
        let head = heads[chain_of(hash, chains)];
        find(&self.parts, &self.lines, chains, head, hash, parts)
    }

    /// The place of the row without columns.
    pub fn bare(&self) -> Option<usize>
        ensures { MatchOption result
            ((i : ℕ) (e : Entry) → i < length self.now →
            (slice_index_or self.now i e).sum.parts ≡ [] → ⊥)
            (λ i. (i < length self.now)
            × ((e : Entry) → (slice_index_or self.now i e).sum.parts ≡ [])) }
    {
        self.place_of(&[])
    }

    /// Puts the rows into this many chains.
    fn grow(&mut self, chains: usize) -> Result<(), OutOfMemory>
        requires some { 0 < chains }
        requires limit { chains ≤ 65536 }
        ensures { self.new ≡ self.old }
    {
        if u32::try_from(self.lines.len()).is_err() {
            return Err(AllocError);
        }
        self.many.resize(chains, 0)?;
        self.many.fill(0);
        chain(&mut self.lines, &mut self.many);
        self.full = if chains < MANY {
            FULL * chains
        } else {
            usize::MAX
        };
        Ok(())
    }

    /// Puts the rows into more chains, unless there are as many as there may be.
    #[cold]
    fn regroup(&mut self) -> Result<(), OutOfMemory>
        ensures { self.new ≡ self.old }
    {
        let chains = self.many.len().max(FEW);
        if chains >= MANY {
            return Ok(());
        }
        self.grow(GROWTH * chains)
    }

    /// Adds a row.
    #[inline(always)]
    pub fn add(
        &mut self,
        parts: &[(u32, i128)],
        constant: i128,
        origin: Origin,
    ) -> Result<(), OutOfMemory>
        requires { AllWithin parts.now }
        ensures { OnOk result (IsAdded (record { parts = parts.now; constant = constant }) origin
            self.old self.new) }
    {
        if self.lines.len() >= self.full {
            self.regroup()?;
        }
        self.put(parts, constant, origin)
    }

    /// Joins a row with the one of the same coefficients, or puts it after the others.
    #[inline(always)]
    fn put(
        &mut self,
        parts: &[(u32, i128)],
        constant: i128,
        origin: Origin,
    ) -> Result<(), OutOfMemory>
        requires { AllWithin parts.now }
        ensures { OnOk result (IsAdded (record { parts = parts.now; constant = constant }) origin
            self.old self.new) }
    {
        let hash = hash_of(parts);
        let heads = heads_of(&self.few, &self.many);
        let chains = heads.len();
        let chain = chain_of(hash, chains);
        let before = heads[chain];
        match find(&self.parts, &self.lines, chains, before, hash, parts) {
            Some(place) => {
                join(&mut self.lines[place], constant, origin);
                Ok(())
            }
            None => {
                let Ok(number) = u32::try_from(self.lines.len() + 1) else {
                    return Err(AllocError);
                };
                let first = first_of(parts);
                let start = self.parts.len();
                append(&mut self.parts, parts)?;
                let end = self.parts.len();
                self.lines.push(Line {
                    start,
                    end,
                    constant,
                    least: constant,
                    origin,
                    before,
                    hash,
                    first,
                })?;
                set_head(&mut self.few, &mut self.many, chain, number);
                Ok(())
            }
        }
    }
}
