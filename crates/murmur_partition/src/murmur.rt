ghost use Rattle.std.specs.Prelude.{◌≡◌, ◌<◌, ◌%◌, ◌^◌, length};
ghost use Rattle.murmur_partition.specs.Murmur.{murmur3_of, mixed, with_block, with_tail, with_bytes, number_of, folded, finished};

/// Murmur3 in its form for 32 bits on x86. Takes no memory, and time in proportion to the bytes.
pub fn murmur3(bytes: &[u8], seed: u32) -> u32
    ensures { result ≡ murmur3_of bytes.now seed }
{
    let mut hash = seed;
    let mut rest = bytes;
    'words: while let Some((block, behind)) = rest.split_first_chunk::<4>() {
        hash = with_block(hash, u32::from_le_bytes(*block));
        rest = behind;
    }
    finish(with_tail(hash, rest), bytes.len())
}

fn mix(block: u32) -> u32
    ensures { result ≡ mixed block }
{
    block
        .wrapping_mul(0xcc9e_2d51)
        .rotate_left(15)
        .wrapping_mul(0x1b87_3593)
}

fn with_block(hash: u32, block: u32) -> u32
    ensures { result ≡ with_block hash block }
{
    (hash ^ mix(block))
        .rotate_left(13)
        .wrapping_mul(5)
        .wrapping_add(0xe654_6b64)
}

/// The bytes behind the last block go in.
fn with_tail(hash: u32, tail: &[u8]) -> u32
    requires { length tail.now < 4 }
    ensures { result ≡ with_bytes hash tail.now }
{
    match tail {
        [] => hash,
        [a] => hash ^ mix(u32::from(*a)),
        [a, b] => hash ^ mix(u32::from_le_bytes([*a, *b, 0, 0])),
        [a, b, c, ..] => hash ^ mix(u32::from_le_bytes([*a, *b, *c, 0])),
    }
}

fn fold(hash: u32, shift: u32) -> u32
    requires { shift < 32 }
    ensures { result ≡ folded shift hash }
{
    hash ^ (hash >> shift)
}

fn finish(hash: u32, length: usize) -> u32
    ensures { result ≡ finished hash length }
{
    let length = (length % (1 << 32)) as u32;
    let first = fold(hash ^ length, 16);
    let second = fold(first.wrapping_mul(0x85eb_ca6b), 13);
    fold(second.wrapping_mul(0xc2b2_ae35), 16)
}
