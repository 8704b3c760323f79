// A record of 128 bytes: sixteen 64-bit words, little-endian. Word 0 is how many words the list has,
// at most 14; words 1 to 14 are the list, then zeros; word 15 is the hash that the Rust gave.
ghost use Rattle.std.specs.Prelude.{◌≡◌, ◌≤◌, ◌<◌, length};
ghost use Rattle.hashes.specs.Records.{agreeing, list_in, word_at};
ghost use Rattle.words.specs.Hash.{hash_of};

// Word i of a record.
fn word_at(bytes: &[u8], i: usize) -> u64
    requires { (i < 16) × (length bytes.now ≡ 128) }
    ensures { result ≡ word_at bytes.now i }
{
    let at = 8 * i;
    u64::from_le_bytes([
        bytes[at],
        bytes[at + 1],
        bytes[at + 2],
        bytes[at + 3],
        bytes[at + 4],
        bytes[at + 5],
        bytes[at + 6],
        bytes[at + 7],
    ])
}

// Lays the list's words out, as many as `list` has room for.
fn lay_out(bytes: &[u8], list: &mut [u64])
    requires { (length list.old ≤ 14) × (length bytes.now ≡ 128) }
    ensures { list.new ≡ list_in bytes.now (length list.old) }
{
    for i in 0..list.len() {
        list[i] = word_at(bytes, i + 1);
    }
}

// The hash of the list's words, as many as `list` has room for.
fn list_hash(bytes: &[u8], list: &mut [u64]) -> u64
    requires { (length list.old ≤ 14) × (length bytes.now ≡ 128) }
    ensures { result ≡ hash_of (list_in bytes.now (length list.old)) }
{
    lay_out(bytes, list);
    words::hash_words(list)
}

// Is the hash of the record's list the recorded one? It is not where more than 14 words are named.
// `list` is room to lay the words out in.
pub fn agrees(bytes: &[u8], list: &mut [u64]) -> bool
    requires { (length bytes.now ≡ 128) × (length list.old ≡ 14) }
    ensures { result ≡ agreeing bytes.now }
{
    let count = word_at(bytes, 0) as usize;
    if count > 14 {
        return false;
    }
    list_hash(bytes, &mut list[..count]) == word_at(bytes, 15)
}
