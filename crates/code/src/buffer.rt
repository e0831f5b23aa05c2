// Bytes handed over in a caller's buffer.
ghost use Rattle.std.specs.Prelude.{◌≡◌, ◌≤◌, length};
ghost use Rattle.defs.specs.Write.{front};

// Copies bytes to the front of a buffer that has room for them.
pub fn copy(bytes: &[u8], buffer: &mut [u8])
    requires { length bytes.now ≤ length buffer.old }
    ensures { buffer.new ≡ front bytes.now buffer.old }
{
    buffer[..bytes.len()].copy_from_slice(bytes);
}
