#![tactic(auto)]
// A window of bits: what the recoders read.
ghost use Rattle.std.specs.Prelude.{◌≡◌, ◌+◌, ◌*◌, ◌^◌, ◌<◌, get_or};
ghost use Rattle.window.specs.Window.{Windowed};

// The byte at an index; past the last byte stand zeros.
fn byte_at(bytes: &[u8], i: usize) -> u32
    ensures { (result ≡ get_or bytes.now i 0) × (result < 256) }
{
    bytes.get(i).copied().map_or(0, u32::from)
}

// Two neighbouring bytes as one number, the first of them the lower.
fn pair_at(bytes: &[u8], i: usize) -> u32
    requires { i < 2 ^ 63 }
    ensures { (result ≡ get_or bytes.now i 0 + 256 * get_or bytes.now (i + 1) 0) × (result < 65536) }
{
    if i + 1 < bytes.len() {
        u32::from(bytes[i]) + 256 * u32::from(bytes[i + 1])
    } else {
        byte_at(bytes, i)
    }
}

// The w bits from place `at` up, from two neighbouring bytes. More than 8 bits are not read: they give 0.
pub fn window(bytes: &[u8], at: usize, w: usize) -> u32
    ensures { Windowed bytes.now at w result }
{
    if 8 < w {
        return 0;
    }
    (pair_at(bytes, at / 8) >> (at % 8)) % (1 << w)
}
