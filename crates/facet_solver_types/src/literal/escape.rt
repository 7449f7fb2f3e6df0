//! Escapes of a text token: each is read from the letters behind its `\`, and tells what is left.
ghost use Rattle.std.specs.Prelude.{◌≡◌, ◌≤◌, length, IfSome};
ghost use Rattle.std.specs.Option.{option_and_then};
ghost use Rattle.facet_solver_types.specs.Literals as literals;

/// The letter that an escape says, if it says one, and what is behind it; `None` where there is no
/// such escape.
pub(super) fn escape(letters: &[char]) -> Option<(Option<char>, &[char])>
    ensures value { literals.said_by_escape result ≡ literals.said literals.escape letters.now }
    ensures shorter { IfSome result (λ e. length e.1.now ≤ length letters.now) }
{
    let (letter, rest) = letters.split_first()?;
    match *letter {
        'x' => {
            let (letter, rest) = byte(rest)?;
            Some((Some(letter), rest))
        }
        'u' => {
            let (letter, rest) = unicode(rest)?;
            Some((Some(letter), rest))
        }
        '\n' => Some((None, past_blanks(rest))),
        letter => Some((Some(short(letter)?), rest)),
    }
}

/// The letter that a letter behind `\` stands for.
fn short(letter: char) -> Option<char>
    ensures { result ≡ literals.short letter }
{
    match letter {
        'n' => Some('\n'),
        'r' => Some('\r'),
        't' => Some('\t'),
        '\\' => Some('\\'),
        '0' => Some('\0'),
        '\'' => Some('\''),
        '"' => Some('"'),
        _ => None,
    }
}

/// What is behind blanks.
fn past_blanks(letters: &[char]) -> &[char]
    ensures value { literals.said literals.nothing result.now
        ≡ literals.said literals.blanks letters.now }
    ensures shorter { length result.now ≤ length letters.now }
{
    let mut rest = letters;
    while let Some((letter, behind)) = rest.split_first() {
        if !matches!(*letter, '\n' | ' ' | '\t' | '\r') {
            break;
        }
        rest = behind;
    }
    rest
}

/// The value of a digit of base 16.
fn hex(letter: char) -> Option<u32>
    ensures value { result ≡ literals.hex letter }
    ensures small { IfSome result (λ digit. digit ≤ 15) }
{
    letter.to_digit(16)
}

/// The letter of two digits, behind `\x`.
fn byte(letters: &[char]) -> Option<(char, &[char])>
    ensures value { literals.said_by_letter result ≡ literals.said literals.byte letters.now }
    ensures shorter { IfSome result (λ e. length e.1.now ≤ length letters.now) }
{
    let (high, behind) = letters.split_first()?;
    let high = hex(*high)?;
    let (low, rest) = behind.split_first()?;
    let code = 16 * high + hex(*low)?;
    if code < 128 {
        Some((char::from_u32(code)?, rest))
    } else {
        None
    }
}

/// The letter of digits in braces, behind `\u`.
fn unicode(letters: &[char]) -> Option<(char, &[char])>
    ensures value { literals.said_by_letter result ≡ literals.said literals.unicode letters.now }
    ensures shorter { IfSome result (λ e. length e.1.now ≤ length letters.now) }
{
    let (brace, rest) = letters.split_first()?;
    if *brace == '{' { digits(rest) } else { None }
}

/// The letter of digits and a `}`, behind `\u{`.
fn digits(letters: &[char]) -> Option<(char, &[char])>
    ensures value { literals.said_by_letter result
        ≡ literals.said (literals.digits 0 0) letters.now }
    ensures shorter { IfSome result (λ e. length e.1.now ≤ length letters.now) }
{
    let mut rest = letters;
    let mut count = 0;
    let mut code = 0;
    while let Some((letter, behind)) = rest.split_first() {
        if *letter == '}' {
            let letter = of_digits(count, code)?;
            return Some((letter, behind));
        }
        if *letter != '_' || count == 0 {
            if count >= 6 {
                return None;
            }
            code = 16 * code + hex(*letter)?;
            count += 1;
        }
        rest = behind;
    }
    None
}

/// The letter of a code that digits say, of which there has to be one.
fn of_digits(count: u32, code: u32) -> Option<char>
    ensures { option_and_then literals.says result ≡ literals.of_digits count code }
{
    if count > 0 {
        char::from_u32(code)
    } else {
        None
    }
}
