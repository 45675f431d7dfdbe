use grid_base::PartitionId;
use murmur_partition::{ShortData, key_hash, murmur3, partition_of};
use std::test::Fail;

/// Bytes, a seed, and the hash, as they were published.
const HASHES: &[(&[u8], u32, u32)] = &[
    (b"", 0, 0),
    (b"", 1, 0x514e_28b7),
    (b"", 0xffff_ffff, 0x81f1_6f39),
    (b"", 0x0100_0193, 0xa183_f3bb),
    (b"\xff\xff\xff\xff", 0, 0x7629_3b50),
    (b"!Ce\x87", 0, 0xf55b_516b),
    (b"!Ce\x87", 0x5082_edee, 0x2362_f9de),
    (b"!Ce", 0, 0x7e4a_8634),
    (b"!C", 0, 0xa0f7_b07a),
    (b"!", 0, 0x7266_1cf4),
    (b"\0\0\0\0", 0, 0x2362_f9de),
    (b"\0\0\0", 0, 0x85f0_b427),
    (b"\0\0", 0, 0x30f4_c306),
    (b"\0", 0, 0x514e_28b7),
    (b"aaaa", 0x9747_b28c, 0x5a97_808a),
    (b"1", 0x0100_0193, 0xaa40_1f4e),
    (b"12", 0x0100_0193, 0xd987_d6e1),
    (b"123", 0x0100_0193, 0x3325_675b),
    (b"12345", 0x0100_0193, 0x07af_5031),
    (b"123456", 0x0100_0193, 0x93a3_b407),
    (b"1234567", 0x0100_0193, 0x96ea_28a4),
    (b"12345678", 0x0100_0193, 0xb976_f157),
    (b"123456789", 0x0100_0193, 0xad41_a54e),
    (
        b"The quick brown fox jumps over the lazy dog",
        0x9747_b28c,
        0x2fa8_26cd,
    ),
];

#[test]
fn hashes_agree_with_published_ones(rt: HostRuntime) {
    for (bytes, seed, wanted) in HASHES {
        assert_eq!(rt; murmur3(bytes, *seed), *wanted);
    }
}

/// Keys, their hashes and their partitions.
const KEYS: &[(&[u8], i32, PartitionId)] = &[
    (b"\x00\x00\x01\x0f\0\0\0\0", 271, 0),
    (b"\x00\x00\x01\x0e\0\0\0\0", 270, 270),
    (b"\x00\x00\x01\x10\0\0\0\0k", 272, 1),
    (b"\xff\xff\xff\xff\0\0\0\0k", -1, 1),
    (b"\x80\x00\x00\x00\0\0\0\0", i32::MIN, 0),
    (b"\x00\x00\x00\x00\xff\xff\xff\xf5", -1_585_187_909, 238),
    (b"\x00\x00\x00\x00\xff\xff\xff\xf5k", 510_919_511, 230),
];

#[test]
fn a_key_states_its_hash_or_has_that_of_its_content(rt: HostRuntime) -> Result<(), Fail> {
    for (bytes, hash, partition) in KEYS {
        assert_eq!(rt; key_hash(bytes)?, *hash);
        assert_eq!(rt; partition_of(*hash), *partition);
    }
    assert_eq!(rt; key_hash(b"\0\0\0\0\0\0\0"), Err(ShortData));
    Ok(())
}
