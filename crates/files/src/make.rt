// Makes the words that are written: a header, and a word of each kind from its fields. Reading a made word back gives the fields again
// (proofs/Fields.antt).
ghost use Rattle.std.specs.Prelude.{◌≡◌, cond, ◌<◌, ◌≤◌};
ghost use Rattle.files.specs.Field.{header_word, node_word, edge_word, door_word, row_word, word_of, pair, answer_word};
ghost use Rattle.files.specs.Path.{range_word, group_word, outside_word, operator_word};

// The header of a file of `size` words, itself included.
pub fn header(kind: u32, site: u32, n: u32, size: u32) -> u32
    requires { (kind < 16) × (site < 16) × (n < 16) × (size < 16384) }
    ensures { result ≡ header_word kind site n size }
{
    kind * 0x1000_0000 + (site * 0x100_0000 + n * 0x10_0000 + size)
}

// A bit's value where it is set.
fn flag(b: bool, value: u32) -> u32
    ensures { (result ≡ cond b value 0) × (result ≤ value) }
{
    if b { value } else { 0 }
}

pub fn node_word(x: u32, door: bool, root: bool, stopped: bool) -> u32
    requires { x < 65536 }
    ensures { result ≡ node_word x door root stopped }
{
    0x2000_0000 + (flag(stopped, 0x4_0000) + flag(root, 0x2_0000) + flag(door, 0x1_0000) + x)
}

pub fn edge_word(label: u32, target: u32) -> u32
    requires { (label < 4096) × (target < 65536) }
    ensures { result ≡ edge_word label target }
{
    0x3000_0000 + (label * 0x1_0000 + target)
}

pub fn range_word(low: u32, high: u32) -> u32
    requires { (low < 4096) × (high < 4096) }
    ensures { result ≡ range_word low high }
{
    0x5000_0000 + (high * 0x1000 + low)
}

pub fn group_word(group: u32) -> u32
    requires { group < 8 }
    ensures { result ≡ group_word group }
{
    0x5000_0000 + (0x100_0000 + group)
}

pub fn outside_word(low: u32, high: u32) -> u32
    requires { (low < 4096) × (high < 4096) }
    ensures { result ≡ outside_word low high }
{
    0x5000_0000 + (0x200_0000 + high * 0x1000 + low)
}

pub fn operator_word(op: u32) -> u32
    requires { op < 4 }
    ensures { result ≡ operator_word op }
{
    0x6000_0000 + op
}

pub fn door_word(x: u32, root: bool) -> u32
    requires { x < 65536 }
    ensures { result ≡ door_word x root }
{
    0x8000_0000 + (flag(root, 0x1_0000) + x)
}

pub fn row_word(q: u32) -> u32
    requires { q < 16 }
    ensures { result ≡ row_word q }
{
    0x9000_0000 + q
}

// A word that holds a pair: reach words are of kind 10, call words of kind 12.
pub fn pair_word(kind: u32, x: u32, q: u32) -> u32
    requires { (kind < 16) × (x < 65536) × (q < 16) }
    ensures { result ≡ word_of kind (pair x q) }
{
    kind * 0x1000_0000 + (x * 16 + q)
}

pub fn answer_word(x: u32) -> u32
    requires { x < 65536 }
    ensures { result ≡ answer_word x }
{
    0xe000_0000 + x
}
