// The eight bytes of an entry as one number: they are compared and copied in registers, two entries at a time where the compiler makes lanes.
ghost use Rattle.std.specs.Prelude.{◌≡◌, ◌+◌, ◌*◌, ◌≤◌, ◌%◌, length};
ghost use Rattle.record.specs.Bytes.{u24_at, u32_bytes, pair_bytes};
ghost use Rattle.pooling.specs.Words.{bytes_from, vector_of, extra_of, sad_of, smaller_of};

// Four bytes; their low 24 bits are the first three. That each is below 256 is told where it is read, and so the four are read here, and not by `u32_at`;
// `from_le_bytes` is no plainer, since its contract doesn't tell the low 24 bits.
fn four_at(part: &[u8], at: usize) -> u32
    requires { at + 4 ≤ length part.now }
    ensures { (u32_bytes result ≡ bytes_from part.now at 4) × (result % 16777216 ≡ u24_at part.now at) }
{
    let a = record::fields::wide(part[at]);
    let b = record::fields::wide(part[at + 1]);
    let c = record::fields::wide(part[at + 2]);
    let d = record::fields::wide(part[at + 3]);
    a + 256 * b + 65536 * c + 16777216 * d
}

// Entry i.
pub fn word_at(part: &[u8], i: usize) -> u64
    requires { 8 * i + 8 ≤ length part.now }
    ensures { (pair_bytes (vector_of result) (extra_of result) ≡ bytes_from part.now (8 * i) 8) × (sad_of result ≡ u24_at part.now (8 * i + 4)) }
{
    let at = 8 * i;
    let vector = four_at(part, at) as u64;
    let extra = four_at(part, at + 4) as u64;
    vector + 4294967296 * extra
}

// y and x.
pub fn vector_of(word: u64) -> u32
    ensures { result ≡ vector_of word }
{
    (word % 4294967296) as u32
}

// Sad and luma.
pub fn extra_of(word: u64) -> u32
    ensures { result ≡ extra_of word }
{
    (word / 4294967296) as u32
}

// The sad.
fn sad_of(word: u64) -> u64
    ensures { result ≡ sad_of word }
{
    word / 4294967296 % 16777216
}

// Of two entries the one with the smaller sad, the first at a tie.
pub fn smaller(a: u64, b: u64) -> u64
    ensures { result ≡ smaller_of a b }
{
    if sad_of(a) <= sad_of(b) { a } else { b }
}
