// Words in a line.
ghost use Rattle.std.specs.Prelude.{◌≡◌};
ghost use Rattle.std.specs.Prelude.{drop};
ghost use Rattle.axislog_lexer.specs.{past, ends};

// Where the line goes on after a word that stands in it from `at` on.
pub fn past(line: &[u8], at: usize, word: &[u8]) -> Option<usize>
    ensures { result ≡ past word.now at (drop at line.now) }
{
    let rest = line.get(at..).unwrap_or(&[]);
    let stands = rest.starts_with(word);
    if stands { Some(at + word.len()) } else { None }
}

// The line ends with the word, which stands at `at`.
pub fn ends(line: &[u8], at: usize, word: &[u8]) -> bool
    ensures { result ≡ ends word.now at line.now }
{
    past(line, at, word) == Some(line.len())
}
