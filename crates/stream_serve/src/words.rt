//! The words of the command line.
ghost use Rattle.std.specs.Prelude.{map, string_bytes};
ghost use Rattle.stream_serve.specs.Words.{FixesTime};

/// The number of milliseconds that the last word which is a number says. Other words say nothing.
pub fn fixed_time(words: &[String]) -> Option<u64>
    ensures { FixesTime (map string_bytes words.now) result }
{
    let mut fixed = None;
    for word in words {
        if let Ok(time) = word.as_str().parse::<u64>() {
            fixed = Some(time);
        }
    }
    fixed
}
