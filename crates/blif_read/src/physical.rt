// The physical lines of a text, what each adds to its logical line, and whether the next one is joined to it.
ghost use Rattle.std.specs.Prelude.{◌≡◌, ◌<◌, ◌∷◌, length, take, IfSome, is_some, true, Some};
ghost use Rattle.std.specs.Option.{option_copied};
ghost use Rattle.std.specs.List.{position, list_all};
ghost use Rattle.std.specs.Str.Lines.{strip_carriage_return};
ghost use Rattle.blif_read.specs.Lines.{physical_lines, without_comment, before_backslash, is_feed, is_number_sign};
ghost use Rattle.blif_read.specs.Code.Reading.{lines_of, before_end, joined_on, is_mark, is_plain, IsFirst};

fn first_feed(text: &[u8]) -> Option<usize>
    ensures { result ≡ position is_feed text.now }
{
    text.iter().position(|b| *b == b'\n')
}

fn first_number_sign(line: &[u8]) -> Option<usize>
    ensures { result ≡ position is_number_sign line.now }
{
    line.iter().position(|b| *b == b'#')
}

/// The line without its comment.
fn without_comment(line: &[u8]) -> &[u8]
    ensures { result.now ≡ without_comment line.now }
{
    match first_number_sign(line) {
        Some(at) => line.split_at(at).0,
        None => line,
    }
}

/// The line before a backslash that ends it.
fn before_backslash(line: &[u8]) -> Option<&[u8]>
    ensures { option_copied result ≡ before_backslash line.now }
{
    let len = line.len();
    if len > 0 && line[len - 1] == b'\\' {
        Some(line.split_at(len - 1).0)
    } else {
        None
    }
}

/// The line without a carriage return that ends it.
fn without_return(line: &[u8]) -> &[u8]
    ensures { result.now ≡ strip_carriage_return line.now }
{
    let len = line.len();
    if len > 0 && line[len - 1] == b'\r' {
        line.split_at(len - 1).0
    } else {
        line
    }
}

/// The first physical line, and what follows its line feed.
fn physical_line(text: &[u8]) -> (&[u8], Option<&[u8]>)
    ensures cut { physical_lines text.now ≡ result.0.now ∷ lines_of (option_copied result.1) }
    ensures shorter { IfSome result.1 (λ rest. length rest.now < length text.now) }
{
    match first_feed(text) {
        Some(at) => {
            let (line, after) = text.split_at(at);
            (without_return(line), Some(after.split_at(1).1))
        }
        None => (text, None),
    }
}

fn first_mark(text: &[u8]) -> Option<usize>
    ensures { result ≡ position is_mark text.now }
{
    text.iter().position(|b| *b == b'\n' || *b == b'#')
}

/// The place of the first line feed, where no comment begins before it.
fn plain_end(text: &[u8]) -> Option<usize>
    ensures feed { IfSome result (λ at. position is_feed text.now ≡ Some at) }
    ensures plain { IfSome result (λ at. list_all is_plain (take at text.now) ≡ true) }
{
    match first_mark(text) {
        Some(at) => { if text[at] == b'\n' { Some(at) } else { None } }
        None => None,
    }
}

/// The first physical line without its comment, and what follows its line feed. A line without a comment is gone over
/// once.
pub fn uncommented_line(text: &[u8]) -> (&[u8], Option<&[u8]>)
    ensures first { IsFirst text.now result.0.now (option_copied result.1) }
    ensures shorter { IfSome result.1 (λ rest. length rest.now < length text.now) }
{
    match plain_end(text) {
        Some(at) => {
            let (line, after) = text.split_at(at);
            (without_return(line), Some(after.split_at(1).1))
        }
        None => {
            let (line, more) = physical_line(text);
            (without_comment(line), more)
        }
    }
}

/// What a line without its comment adds to its logical line, and whether the next line is joined to it.
pub fn content_of(line: &[u8]) -> (&[u8], bool)
    ensures content { result.0.now ≡ before_end line.now (before_backslash line.now) }
    ensures goes_on { result.1 ≡ is_some (before_backslash line.now) }
{
    match before_backslash(line) {
        Some(front) => (front, true),
        None => (line, false),
    }
}

/// The text behind a physical line, where it goes on with the logical line.
pub fn behind(goes_on: bool, more: Option<&[u8]>) -> Option<&[u8]>
    ensures { option_copied result ≡ joined_on goes_on (option_copied more.entry) }
{
    if goes_on { more } else { None }
}
