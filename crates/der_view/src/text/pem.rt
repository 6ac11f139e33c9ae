//! The blocks of PEM in a text (RFC 7468 section 2).
ghost use Rattle.std.specs.Prelude.{◌≡◌, ◌≤◌, ◌<◌, ◌+◌, ◌^◌, [], ◌∷◌, length, IfSome};
ghost use Rattle.std.specs.Prelude.{MatchOption, codes, false, option_map, true};
ghost use Rattle.std.specs.List.{list_all};
ghost use Rattle.der_view.specs.Blocks.{before, begin_label, block_of, block_view, blocks_in};
ghost use Rattle.der_view.specs.Blocks.{ends_line, is_at, is_blank, is_in, is_key_of_openssl};
ghost use Rattle.der_view.specs.Blocks.{is_label, is_label_byte, is_of_private_key, is_this};
ghost use Rattle.der_view.specs.Blocks.{labelled, line_label, onward, split_headers, trimmed_start};

/// The greatest number of characters of a label.
const LABEL_MOST: usize = 40;

/// What is looked for in a text.
#[derive(Clone, Copy)]
pub(super) enum Sought<'a> {
    /// These bytes.
    Bytes(&'a [u8]),
    /// A line that begins with these bytes.
    Line(&'a [u8]),
    /// A line that is empty, but for white space.
    Blank,
}

impl Sought<'_> {
    /// Returns `true` if this is at the beginning of a text, with which a line begins or not.
    fn is_at(self, starts: bool, text: &[u8]) -> bool
        ensures { result ≡ is_at self.entry starts text.now }
    {
        match self {
            Sought::Bytes(bytes) => text.starts_with(bytes),
            Sought::Line(front) => starts && text.starts_with(front),
            Sought::Blank => starts && is_blank(text),
        }
    }
}

/// Returns what of a text is before the first place with what is looked for, and the text from
/// there on; all and nothing if there is none. A line begins with the text, or not.
pub(super) fn cut<'a>(text: &'a [u8], starts: bool, sought: Sought) -> (&'a [u8], &'a [u8])
    ensures before { result.0.now ≡ before (is_at sought.entry) starts text.now }
    ensures onward { result.1.now ≡ onward (is_at sought.entry) starts text.now }
{
    let mut place = 0;
    let mut rest = text;
    let mut begins = starts;
    while let [byte, after @ ..] = rest {
        if sought.is_at(begins, rest) {
            return text.split_at(place);
        }
        begins = ends_line(*byte, after);
        rest = after;
        place += 1;
    }
    text.split_at(place)
}

/// Returns `true` if a line ends with this byte, which these are after (RFC 7468 section 3).
fn ends_line(byte: u8, after: &[u8]) -> bool
    ensures { result ≡ ends_line byte after.now }
{
    byte == b'\n' || (byte == b'\r' && !after.starts_with(b"\n"))
}

/// Returns `true` if a text, with which a line begins, has what is looked for.
pub(super) fn has(text: &[u8], sought: Sought) -> bool
    ensures { result ≡ is_in (is_at sought.entry) true text.now }
{
    !cut(text, true, sought).1.is_empty()
}

/// Borrows the text without white space in front.
pub(super) fn trimmed_start(text: &[u8]) -> &[u8]
    ensures value { result.now ≡ trimmed_start text.now }
    ensures within { length result.now ≤ length text.now }
{
    text.trim_ascii_start()
}

/// Returns `true` if the first line of a text is empty, but for white space.
fn is_blank(text: &[u8]) -> bool
    ensures { result ≡ is_blank text.now }
{
    let rest = trimmed_start(text);
    let space = &text[..text.len() - rest.len()];
    rest.is_empty() || space.contains(&b'\n') || space.contains(&b'\r')
}

/// A block of PEM.
#[derive(Clone, Copy)]
pub struct Block<'a> {
    /// The number of its first line; that of the first line of the text is 1.
    pub line: usize,
    /// The label.
    pub label: &'a [u8],
    /// The lines before the last one, without headers (RFC 1421 section 4.4).
    pub body: &'a [u8],
    /// Whether there are headers.
    pub has_headers: bool,
    /// Whether the headers say that the body is encrypted (RFC 1421 section 4.6.1.1).
    pub is_encrypted: bool,
    /// Whether the last line is there, with the same label.
    pub has_end: bool,
}

/// Returns the first block whose first line begins in a text after so many lines, and the text
/// after its first byte; `None` if there is none.
pub(super) fn next_block(text: &[u8], starts: bool, number: usize) -> Option<(Block<'_>, &[u8])>
    requires { number + length text.now < 2 ^ 64 }
    ensures value { MatchOption result (blocks_in starts number text.now ≡ [])
        (λ next. blocks_in starts number text.now
        ≡ block_view next.0 ∷ blocks_in false next.0.line next.1.now) }
    ensures within { IfSome result
        (λ next. next.0.line + length next.1.now ≤ number + length text.now) }
{
    let mut line = number;
    let mut rest = text;
    let mut begins = starts;
    while let [byte, after @ ..] = rest {
        line += usize::from(begins);
        if let Some(label) = begin_label(begins, rest) {
            return Some((Block::new(line, label, after), after));
        }
        begins = ends_line(*byte, after);
        rest = after;
    }
    None
}

/// Returns the label of the block that a text begins with, if a line begins with the text.
fn begin_label(starts: bool, text: &[u8]) -> Option<&[u8]>
    ensures { option_map (λ label. label.now) result ≡ begin_label starts text.now }
{
    if starts {
        line_label(b"BEGIN ", text)
    } else {
        None
    }
}

/// Returns the label in the line that a text begins with: five dashes, this word, the label and
/// five dashes; `None` if it isn't such a line.
fn line_label<'a>(word: &[u8], text: &'a [u8]) -> Option<&'a [u8]>
    ensures { option_map (λ label. label.now) result ≡ line_label word.now text.now }
{
    let (label, after) = labelled(word, text)?;
    if is_blank(after) { Some(label) } else { None }
}

/// Returns the label in the text, which begins with five dashes, this word, the label and five
/// dashes, and what is after these; `None` if it doesn't begin so.
pub(super) fn labelled<'a>(word: &[u8], text: &'a [u8]) -> Option<(&'a [u8], &'a [u8])>
    ensures value { option_map (λ found. (found.0.now, found.1.now)) result
        ≡ labelled word.now text.now }
    ensures within { IfSome result (λ found. length found.1.now ≤ length text.now) }
{
    let rest = text.strip_prefix(b"-----")?.strip_prefix(word)?;
    let (label, end) = cut(rest, true, Sought::Bytes(b"-----"));
    let after = end.strip_prefix(b"-----")?;
    if is_label(label) {
        Some((label, after))
    } else {
        None
    }
}

/// Returns `true` if the text is a label.
fn is_label(text: &[u8]) -> bool
    ensures { result ≡ is_label text.now }
{
    1 <= text.len() && text.len() <= LABEL_MOST && are_label_bytes(text)
}

/// Returns `true` if each byte may be in a label.
fn are_label_bytes(text: &[u8]) -> bool
    ensures { result ≡ list_all is_label_byte text.now }
{
    text.iter().all(|byte| matches!(byte, b'A'..=b'Z' | b'0'..=b'9' | b' ' | b'#' | b'.'))
}

/// Returns `true` if a text begins with the last line of a block with this label.
fn is_end(text: &[u8], label: &[u8]) -> bool
    ensures { result ≡ is_this (line_label (codes "END ") text.now) label.now }
{
    match line_label(b"END ", text) {
        Some(other) => other == label,
        None => false,
    }
}

/// Returns the headers in what is between the first line of a block and its last one (RFC 1421
/// section 4.4), and what is after them. The headers are the lines up to an empty one, if one of
/// them has a colon.
fn split_headers(inside: &[u8]) -> (&[u8], &[u8])
    ensures headers { result.0.now ≡ (split_headers inside.now).0 }
    ensures body { result.1.now ≡ (split_headers inside.now).1 }
{
    let (headers, rest) = cut(inside, true, Sought::Blank);
    if !rest.is_empty() && headers.contains(&b':') {
        (headers, cut(rest, false, Sought::Line(b"")).1)
    } else {
        (&inside[..0], inside)
    }
}

impl<'a> Block<'a> {
    /// Returns the block with this label in its first line, of which this is the number, before
    /// this text.
    fn new(line: usize, label: &'a [u8], text: &'a [u8]) -> Block<'a>
        ensures { block_view result ≡ block_of line label.now text.now }
    {
        let (lines, end) = cut(text, false, Sought::Line(b"-----"));
        let (headers, body) = split_headers(cut(lines, false, Sought::Line(b"")).1);
        Block {
            line,
            label,
            body,
            has_headers: !headers.is_empty(),
            is_encrypted: has(headers, Sought::Line(b"Proc-Type: 4,ENCRYPTED")),
            has_end: is_end(end, label),
        }
    }

    /// Returns `true` if the label ends in the words that those of private keys end in.
    pub(super) fn is_of_private_key(&self) -> bool
        ensures { result ≡ is_of_private_key (block_view self.now) }
    {
        self.label.ends_with(b"PRIVATE KEY")
    }

    /// Returns `true` if OpenSSL reads a key from this block, if it is the first one of a text: it
    /// has its last line, one of three labels, and no headers but those of encryption.
    pub fn is_key_of_openssl(&self) -> bool
        ensures { result ≡ is_key_of_openssl (block_view self.now) }
    {
        let label = self.label;
        self.has_end
            && (label == b"EC PRIVATE KEY".as_slice()
                || label == b"PRIVATE KEY".as_slice()
                || label == b"ENCRYPTED PRIVATE KEY".as_slice())
            && (!self.has_headers || self.is_encrypted)
    }
}
