ghost use Rattle.std.specs.Prelude.{◌≡◌, drop};

/// The program's words: all of its arguments after its name.
pub fn words_of(args: &[String]) -> &[String]
    ensures { result.now ≡ drop 1 args.now }
{
    match args.split_first() {
        Some((_, words)) => words,
        None => &[],
    }
}
