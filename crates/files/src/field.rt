// The fields of a word.
ghost use Rattle.std.specs.Prelude.{◌≡◌};
ghost use Rattle.files.specs.Field.{kind_of, site_of, labels_of, size_of, node_of, door_of, root_of, stopped_of, label_of, target_of, state_of};

pub fn kind(w: u32) -> u32
    ensures { result ≡ kind_of w }
{
    w / 0x1000_0000
}

pub fn site(w: u32) -> u32
    ensures { result ≡ site_of w }
{
    w / 0x0100_0000 % 16
}

pub fn labels(w: u32) -> u32
    ensures { result ≡ labels_of w }
{
    w / 0x0010_0000 % 16
}

// The number of words of the file, in its header.
pub fn size(w: u32) -> u32
    ensures { result ≡ size_of w }
{
    w % 0x4000
}

pub fn node(w: u32) -> u32
    ensures { result ≡ node_of w }
{
    w % 0x1_0000
}

pub fn door(w: u32) -> bool
    ensures { result ≡ door_of w }
{
    w / 0x1_0000 % 2 == 1
}

pub fn root(w: u32) -> bool
    ensures { result ≡ root_of w }
{
    w / 0x2_0000 % 2 == 1
}

pub fn stopped(w: u32) -> bool
    ensures { result ≡ stopped_of w }
{
    w / 0x4_0000 % 2 == 1
}

pub fn label(w: u32) -> u32
    ensures { result ≡ label_of w }
{
    w / 0x1_0000 % 0x1000
}

pub fn target(w: u32) -> u32
    ensures { result ≡ target_of w }
{
    w % 0x1_0000
}

// The state of a row, a reach and a call word.
pub fn state(w: u32) -> u32
    ensures { result ≡ state_of w }
{
    w % 16
}
