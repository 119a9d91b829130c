// Copies of frames.
ghost use Rattle.std.specs.Prelude.{◌≡◌, ◌⊎◌, ◌+◌, ◌≤◌, length, take, drop};
ghost use Rattle.cow_pages.specs.Writes.{put_at};

/// How many bytes a page has, and so the frame in which it stands.
pub const PAGE: u32 = 4096;

// Copies the bytes of a frame of a pool to another one.
#[inline]
pub fn copy_frame(pool: &mut [u8], from: usize, to: usize)
    requires there { from + PAGE ≤ length pool.old }
    requires fits { to + PAGE ≤ length pool.old }
    requires apart { (from + PAGE ≤ to) ⊎ (to + PAGE ≤ from) }
    ensures { pool.new ≡ put_at to (take PAGE (drop from pool.old)) pool.old }
{
    copy_part(pool, from, to, PAGE as usize);
}

// Copies so many bytes of a pool to another place of it. By slices that lie apart it is one copy of the C library, which takes more bytes at
// once than `copy_within`.
#[inline(always)]
pub fn copy_part(pool: &mut [u8], from: usize, to: usize, count: usize)
    requires there { from + count ≤ length pool.old }
    requires fits { to + count ≤ length pool.old }
    requires apart { (from + count ≤ to) ⊎ (to + count ≤ from) }
    ensures { pool.new ≡ put_at to (take count (drop from pool.old)) pool.old }
{
    if from < to {
        let (front, back) = pool.split_at_mut(to);
        back[..count].copy_from_slice(&front[from..from + count]);
    } else {
        let (front, back) = pool.split_at_mut(from);
        front[to..to + count].copy_from_slice(&back[..count]);
    }
}
