//! The usage text.

ghost use Rattle.std.specs.Prelude.{◌≡◌};
ghost use Rattle.report_text.specs.Usage.{usage_text};

const USAGE: &str = "\
usage: smash check [--budget n] [--workers n]
       smash replay [--fuel n] list
       smash workload n [--budget n] [--workers n]
       smash bundle k [--budget n]
       smash recheck
       smash sweep [--edges n]
       smash edit n [--budget n] [--workers n]
";

/// What is written of words that are no command.
pub fn usage() -> &'static [u8]
    ensures { result.now ≡ usage_text }
{
    USAGE.as_bytes()
}
