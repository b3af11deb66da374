// The caller's buffers.
ghost use Rattle.std.specs.Prelude.{◌≡◌, length};
ghost use Rattle.files.specs.Outcome.{zeros};

// Sets every byte to 0.
pub fn clear(buf: &mut [u8])
    ensures { buf.new ≡ zeros (length buf.old) }
{
    buf.fill(0);
}
