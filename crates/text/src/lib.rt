// Document 01, module 1, text and metadata: the UTF-8 check of a string, by the syntax of RFC 3629, section 4, and equality
// and order of byte strings. The Rust has these from `String`, and from the `BTreeMap<String, String>` of metadata.rs.
// Look-up of a key walks a sheet: datatype has it.
#![tactic(auto)]

ghost use Rattle.std.specs.Prelude.{◌≡◌, ◌+◌, ◌≤◌, length, take, drop};
ghost use Rattle.model.specs.Bytes.{num, all, same_bytes, below};
ghost use Rattle.model.specs.Text.{utf8};
ghost use Rattle.text.specs.Text.{text_of, ascii};

// What the check of text answers where the bytes are none. Not a bool, since it is to say where they break.
#[derive(Clone, Copy, Debug, PartialEq, Eq)]
pub struct NotUtf8;

// Whether every byte is ASCII. It takes the largest of all and stops at none, since such a chain compiles to vector code.
fn is_ascii(p: &[u8]) -> bool
    ensures { result ≡ all ascii p.now }
{
    p.iter().fold(0u8, |largest, b| largest.max(*b)) < 0x80
}

// Whether the bytes are text, character by character. Out of line, so that text of ASCII alone costs no more than its test.
#[inline(never)]
fn check_characters(p: &[u8]) -> Result<(), NotUtf8>
    ensures { result ≡ text_of (utf8 p.now) }
{
    match str::from_utf8(p) {
        Ok(_) => Ok(()),
        Err(_) => Err(NotUtf8),
    }
}

// Whether the bytes are text. Most are ASCII, which is found out first.
pub fn check(p: &[u8]) -> Result<(), NotUtf8>
    ensures { result ≡ text_of (utf8 p.now) }
{
    if is_ascii(p) {
        return Ok(());
    }
    check_characters(p)
}

// The number of the eight bytes at a place, the lowest first. It compiles to one load.
pub fn word(s: &[u8], i: usize) -> u64
    requires { i + 8 ≤ length s.now }
    ensures { result ≡ num (take 8 (drop i s.now)) }
{
    u64::from_le_bytes(*s[i..].first_chunk().unwrap())
}

// Whether two byte strings are equal. Names are compared by this function alone, and from the end, since those that differ often begin
// alike: of fewer than eight bytes each byte; else the last eight, and then eight at a time from the front on, up to where these begin.
pub fn same(a: &[u8], b: &[u8]) -> bool
    ensures { result ≡ same_bytes a.now b.now }
{
    if a.len() != b.len() {
        return false;
    }
    if a.len() < 8 {
        return a.iter().rev().eq(b.iter().rev());
    }
    let last = a.len() - 8;
    if word(a, last) != word(b, last) {
        return false;
    }
    for i in (0..last).step_by(8) {
        if word(a, i) != word(b, i) {
            return false;
        }
    }
    true
}

// Whether the first byte string is below the second: by bytes, a prefix first.
pub fn is_below(a: &[u8], b: &[u8]) -> bool
    ensures { result ≡ below a.now b.now }
{
    a.cmp(b).is_lt()
}
