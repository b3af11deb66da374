// A table of sixteen-bit numbers in lent bytes: number i of the table that starts at byte `base`.
ghost use Rattle.std.specs.Prelude.{◌≡◌, ◌+◌, ◌*◌, ◌<◌, length};
ghost use Rattle.sets.specs.Table.{half, put_half};

pub fn get16(work: &[u8], base: usize, i: usize) -> u16
    requires { base + 2 * i + 1 < length work.now }
    ensures { result ≡ half work.now base i }
{
    let at = base + 2 * i;
    u16::from_le_bytes([work[at], work[at + 1]])
}

pub fn put16(work: &mut [u8], base: usize, i: usize, v: u16)
    requires { base + 2 * i + 1 < length work.old }
    ensures { work.new ≡ put_half work.old base i v }
{
    let at = base + 2 * i;
    let [low, high] = v.to_le_bytes();
    work[at] = low;
    work[at + 1] = high;
}
