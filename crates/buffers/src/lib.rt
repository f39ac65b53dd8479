// Bytes copied and set in lent buffers.
#![tactic(auto)]

ghost use Rattle.std.specs.Prelude.{◌≡◌, ◌++◌, ◌≤◌, length, take, drop};
ghost use Rattle.lists.specs.Tabulate.{tabulate};

// The first n bytes of src into the front of dst.
pub fn copy_front(src: &[u8], dst: &mut [u8], n: usize)
    requires { (n ≤ length src.now) × (n ≤ length dst.old) }
    ensures { dst.new ≡ take n src.now ++ drop n dst.old }
{
    for i in 0..n {
        dst[i] = src[i];
    }
}

// All of src over dst, which is as long. A loop that the compiler sees whole calls memcpy, where the library's own copy would call memmove: the archive for C needs
// memcpy and memset alone.
pub fn copy_all(src: &[u8], dst: &mut [u8])
    requires { length dst.old ≡ length src.now }
    ensures { dst.new ≡ src.now }
{
    copy_front(src, dst, src.len());
}

// The first n bytes of dst set to one value.
pub fn fill_front(dst: &mut [u8], n: usize, value: u8)
    requires { n ≤ length dst.old }
    ensures { dst.new ≡ tabulate (λ _. value) n ++ drop n dst.old }
{
    dst[..n].fill(value);
}
