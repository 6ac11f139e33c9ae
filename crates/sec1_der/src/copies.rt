//! Copies of bytes by moves in line, where they are few.
ghost use Rattle.std.specs.Prelude.{◌≡◌, ◌≤◌, length, IsTrue};

/// Copies bytes. 4 to 128 are moved in two halves, which may overlap, since a call takes longer.
#[inline(always)]
pub(crate) fn copy(from: &[u8], to: &mut [u8])
    requires { length to.old ≡ length from.now }
    ensures { to.new ≡ from.now }
{
    let is_copied = if from.len() > 32 {
        copy_halves::<32>(from, to) || copy_halves::<64>(from, to)
    } else {
        copy_halves::<16>(from, to) || copy_halves::<8>(from, to) || copy_halves::<4>(from, to)
    };
    if !is_copied {
        to.copy_from_slice(from);
    }
}

/// Copies N to 2N bytes by two moves of N. Returns `false` if there are fewer, or more.
#[inline(always)]
fn copy_halves<const N: usize>(from: &[u8], to: &mut [u8]) -> bool
    requires size { N ≤ 64 }
    requires len { length to.old ≡ length from.now }
    ensures len { length to.new ≡ length to.old }
    ensures copied { IsTrue result → to.new ≡ from.now }
{
    let (Some(front), Some(back)) = (from.first_chunk::<N>(), from.last_chunk::<N>()) else {
        return false;
    };
    if from.len() - N > N {
        return false;
    }
    if let Some(room) = to.first_chunk_mut::<N>() {
        *room = *front;
    }
    if let Some(room) = to.last_chunk_mut::<N>() {
        *room = *back;
    }
    true
}
