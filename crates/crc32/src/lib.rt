// CRC-32 of IEEE 802.3 over a lent slice of any length. `crc32` of page.rs goes bit by bit; here eight bytes are one step, through a
// table of what 64 bit steps make of each hexadecimal digit at each place, and the bytes that are left go bit by bit. Nothing is believed of
// the table: every entry is computed by the checker and compared.
#![tactic(auto)]

ghost use Rattle.std.specs.Prelude.{◌≡◌, ◌+◌, ◌*◌, ◌/◌, ◌%◌, ◌^◌, ◌<◌, ◌≤◌, length, drop};
ghost use Rattle.words.specs.Words.{le_at};
ghost use Rattle.crc32.specs.Crc.{bit_step, bit_steps, byte_step, remainder, crc32_of};
ghost use Rattle.crc32.specs.Table.{Tabled};

const POLYNOMIAL: u32 = 0xEDB8_8320;

const ONES: u32 = 0xffff_ffff;

// At 16 * place + digit: the digit at that place of a number, 64 bit steps later.
static TABLE: [u32; 256] = [
    0x0000_0000,
    0xccaa_009e,
    0x4225_077d,
    0x8e8f_07e3,
    0x844a_0efa,
    0x48e0_0e64,
    0xc66f_0987,
    0x0ac5_0919,
    0xd3e5_1bb5,
    0x1f4f_1b2b,
    0x91c0_1cc8,
    0x5d6a_1c56,
    0x57af_154f,
    0x9b05_15d1,
    0x158a_1232,
    0xd920_12ac,
    0x0000_0000,
    0x7cbb_312b,
    0xf976_6256,
    0x85cd_537d,
    0x299d_c2ed,
    0x5526_f3c6,
    0xd0eb_a0bb,
    0xac50_9190,
    0x533b_85da,
    0x2f80_b4f1,
    0xaa4d_e78c,
    0xd6f6_d6a7,
    0x7aa6_4737,
    0x061d_761c,
    0x83d0_2561,
    0xff6b_144a,
    0x0000_0000,
    0xa677_0bb4,
    0x979f_1129,
    0x31e8_1a9d,
    0xf44f_2413,
    0x5238_2fa7,
    0x63d0_353a,
    0xc5a7_3e8e,
    0x33ef_4e67,
    0x9598_45d3,
    0xa470_5f4e,
    0x0207_54fa,
    0xc7a0_6a74,
    0x61d7_61c0,
    0x503f_7b5d,
    0xf648_70e9,
    0x0000_0000,
    0x67de_9cce,
    0xcfbd_399c,
    0xa863_a552,
    0x440b_7579,
    0x23d5_e9b7,
    0x8bb6_4ce5,
    0xec68_d02b,
    0x8816_eaf2,
    0xefc8_763c,
    0x47ab_d36e,
    0x2075_4fa0,
    0xcc1d_9f8b,
    0xabc3_0345,
    0x03a0_a617,
    0x647e_3ad9,
    0x0000_0000,
    0xcb5c_d3a5,
    0x4dc8_a10b,
    0x8694_72ae,
    0x9b91_4216,
    0x50cd_91b3,
    0xd659_e31d,
    0x1d05_30b8,
    0xec53_826d,
    0x270f_51c8,
    0xa19b_2366,
    0x6ac7_f0c3,
    0x77c2_c07b,
    0xbc9e_13de,
    0x3a0a_6170,
    0xf156_b2d5,
    0x0000_0000,
    0x03d6_029b,
    0x07ac_0536,
    0x047a_07ad,
    0x0f58_0a6c,
    0x0c8e_08f7,
    0x08f4_0f5a,
    0x0b22_0dc1,
    0x1eb0_14d8,
    0x1d66_1643,
    0x191c_11ee,
    0x1aca_1375,
    0x11e8_1eb4,
    0x123e_1c2f,
    0x1644_1b82,
    0x1592_1919,
    0x0000_0000,
    0x3d60_29b0,
    0x7ac0_5360,
    0x47a0_7ad0,
    0xf580_a6c0,
    0xc8e0_8f70,
    0x8f40_f5a0,
    0xb220_dc10,
    0x3070_4bc1,
    0x0d10_6271,
    0x4ab0_18a1,
    0x77d0_3111,
    0xc5f0_ed01,
    0xf890_c4b1,
    0xbf30_be61,
    0x8250_97d1,
    0x0000_0000,
    0x60e0_9782,
    0xc1c1_2f04,
    0xa121_b886,
    0x58f3_5849,
    0x3813_cfcb,
    0x9932_774d,
    0xf9d2_e0cf,
    0xb1e6_b092,
    0xd106_2710,
    0x7027_9f96,
    0x10c7_0814,
    0xe915_e8db,
    0x89f5_7f59,
    0x28d4_c7df,
    0x4834_505d,
    0x0000_0000,
    0xb8bc_6765,
    0xaa09_c88b,
    0x12b5_afee,
    0x8f62_9757,
    0x37de_f032,
    0x256b_5fdc,
    0x9dd7_38b9,
    0xc5b4_28ef,
    0x7d08_4f8a,
    0x6fbd_e064,
    0xd701_8701,
    0x4ad6_bfb8,
    0xf26a_d8dd,
    0xe0df_7733,
    0x5863_1056,
    0x0000_0000,
    0x5019_579f,
    0xa032_af3e,
    0xf02b_f8a1,
    0x9b14_583d,
    0xcb0d_0fa2,
    0x3b26_f703,
    0x6b3f_a09c,
    0xed59_b63b,
    0xbd40_e1a4,
    0x4d6b_1905,
    0x1d72_4e9a,
    0x764d_ee06,
    0x2654_b999,
    0xd67f_4138,
    0x8666_16a7,
    0x0000_0000,
    0x01c2_6a37,
    0x0384_d46e,
    0x0246_be59,
    0x0709_a8dc,
    0x06cb_c2eb,
    0x048d_7cb2,
    0x054f_1685,
    0x0e13_51b8,
    0x0fd1_3b8f,
    0x0d97_85d6,
    0x0c55_efe1,
    0x091a_f964,
    0x08d8_9353,
    0x0a9e_2d0a,
    0x0b5c_473d,
    0x0000_0000,
    0x1c26_a370,
    0x384d_46e0,
    0x246b_e590,
    0x709a_8dc0,
    0x6cbc_2eb0,
    0x48d7_cb20,
    0x54f1_6850,
    0xe135_1b80,
    0xfd13_b8f0,
    0xd978_5d60,
    0xc55e_fe10,
    0x91af_9640,
    0x8d89_3530,
    0xa9e2_d0a0,
    0xb5c4_73d0,
    0x0000_0000,
    0x191b_3141,
    0x3236_6282,
    0x2b2d_53c3,
    0x646c_c504,
    0x7d77_f445,
    0x565a_a786,
    0x4f41_96c7,
    0xc8d9_8a08,
    0xd1c2_bb49,
    0xfaef_e88a,
    0xe3f4_d9cb,
    0xacb5_4f0c,
    0xb5ae_7e4d,
    0x9e83_2d8e,
    0x8798_1ccf,
    0x0000_0000,
    0x4ac2_1251,
    0x9584_24a2,
    0xdf46_36f3,
    0xf079_4f05,
    0xbabb_5d54,
    0x65fd_6ba7,
    0x2f3f_79f6,
    0x3b83_984b,
    0x7141_8a1a,
    0xae07_bce9,
    0xe4c5_aeb8,
    0xcbfa_d74e,
    0x8138_c51f,
    0x5e7e_f3ec,
    0x14bc_e1bd,
    0x0000_0000,
    0x7707_3096,
    0xee0e_612c,
    0x9909_51ba,
    0x076d_c419,
    0x706a_f48f,
    0xe963_a535,
    0x9e64_95a3,
    0x0edb_8832,
    0x79dc_b8a4,
    0xe0d5_e91e,
    0x97d2_d988,
    0x09b6_4c2b,
    0x7eb1_7cbd,
    0xe7b8_2d07,
    0x90bf_1d91,
    0x0000_0000,
    0x1db7_1064,
    0x3b6e_20c8,
    0x26d9_30ac,
    0x76dc_4190,
    0x6b6b_51f4,
    0x4db2_6158,
    0x5005_713c,
    0xedb8_8320,
    0xf00f_9344,
    0xd6d6_a3e8,
    0xcb61_b38c,
    0x9b64_c2b0,
    0x86d3_d2d4,
    0xa00a_e278,
    0xbdbd_f21c,
];

fn bit_step(crc: u32) -> u32
    ensures { result ≡ bit_step crc }
{
    if crc & 1 == 1 {
        (crc >> 1) ^ POLYNOMIAL
    } else {
        crc >> 1
    }
}

fn byte_step(crc: u32, byte: u8) -> u32
    ensures { result ≡ byte_step crc byte }
{
    let mut state = crc ^ u32::from(byte);
    for _ in 0..8u32 {
        state = bit_step(state);
    }
    state
}

// A number's lowest digit, as if it stood at that place, 64 bit steps later.
fn digit(place: usize, v: u64) -> u32
    requires { place < 16 }
    ensures { result ≡ bit_steps 64 (v % 16 * 2 ^ (4 * place)) }
{
    let low = (v % 16) as usize;
    TABLE[16 * place + low]
}

// A number, 64 bit steps later, digit by digit from the highest on: those above the 32 bits of a checksum don't wait for the step before.
fn word_step(v: u64) -> u32
    ensures { result ≡ bit_steps 64 v }
{
    let mut crc = 0;
    for place in (0..16).rev() {
        crc ^= digit(place, v >> (4 * place));
    }
    crc
}

pub fn crc32(bytes: &[u8]) -> u32
    ensures { result ≡ crc32_of bytes.now }
{
    let (words, rest) = bytes.as_chunks();
    let mut crc = ONES;
    for word in words {
        crc = word_step(u64::from(crc) ^ u64::from_le_bytes(*word));
    }
    for byte in rest {
        crc = byte_step(crc, *byte);
    }
    crc ^ ONES
}
