//! Pages and the ends of their files.
ghost use Rattle.std.specs.Prelude.{◌≡◌, ◌≤◌, length, replicate};
ghost use Rattle.file_store.specs.Layout.{padded_page};

/// Leaves the first `inside` bytes of a page, and puts zeros in place of the others.
pub fn trim(page: &mut [u8; 4096], inside: usize)
    requires { inside ≤ 4096 }
    ensures { page.new ≡ padded_page inside page.old }
{
    clear(&mut page[inside..]);
}

fn clear(bytes: &mut [u8])
    ensures { bytes.new ≡ replicate (length bytes.old) 0 }
{
    bytes.fill(0);
}
