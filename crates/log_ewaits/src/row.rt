// A row's masks, which read 0 past the end of their column.
ghost use Rattle.std.specs.Prelude.{◌≡◌, slice_index};

pub fn mask_at(masks: &[u32], row: usize) -> u32
    ensures { result ≡ slice_index masks.now row }
{
    if row < masks.len() { masks[row] } else { 0 }
}
