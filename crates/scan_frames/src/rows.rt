//! The row of a page that a line shows.

ghost use Rattle.std.specs.Prelude.{◌≡◌, ◌≤◌, ◌<◌, ◌+◌, ◌*◌, ℕ, true, length, slice_index, OnOk, OnErr, IfOk};
ghost use Rattle.page_picture.specs.Page.{IsRow};
ghost use Rattle.scan_frames.specs.Inside.{SeesRow};
ghost use Rattle.scan_frames.specs.Rows.{StopsFailing, IsWhiteBehind};

use page_picture::{PageSource, SourceFault};

/// Takes rows until row `target` was taken, which then stands at the front of `row`.
fn advance<S: PageSource>(
    source: &mut S,
    row: &mut [u16],
    size: usize,
    taken: u32,
    target: u32,
) -> Result<(), SourceFault>
    requires size { size ≡ 3 * (S.source source.old).page.width }
    requires room { size ≤ length row.old }
    requires taken { taken ≡ (S.source source.old).given }
    requires behind { taken ≤ target }
    requires inside { target < (S.source source.old).page.height }
    ensures ok { OnOk result (S.source source.new
        ≡ record (S.source source.old) { given = target + 1 }) }
    ensures row { OnOk result ((S.source source.old).steady ≡ true
        → IsRow (S.source source.old).page target row.new) }
    ensures rest { (j : ℕ) → size ≤ j → slice_index row.new j ≡ slice_index row.old j }
    ensures err { OnErr result (StopsFailing (S.source source.old) (S.source source.new)) }
{
    // The limits of a page.
    let _size = source.size();
    for _y in taken..target + 1 {
        let more = source.next_row(&mut row[..size])?;
        prove!(more);
    }
    Ok(())
}

/// Makes `row` what is seen at the height of row `target`, on the page or off it. Gives how many rows were taken by
/// then.
pub fn see<S: PageSource>(
    source: &mut S,
    row: &mut [u16],
    taken: u32,
    target: u64,
) -> Result<u32, SourceFault>
    requires row { IsWhiteBehind (S.source source.old).page.width row.old }
    requires taken { taken ≡ (S.source source.old).given }
    requires within { taken ≤ (S.source source.old).page.height }
    requires behind { taken ≤ target }
    ensures row { OnOk result (IsWhiteBehind (S.source source.old).page.width row.new) }
    ensures seen { OnOk result (SeesRow (S.source source.old) target row.new) }
    ensures after { IfOk result (λ n. S.source source.new
        ≡ record (S.source source.old) { given = n }) }
    ensures further { IfOk result (λ n. taken ≤ n) }
    ensures within { IfOk result (λ n. n ≤ (S.source source.old).page.height) }
    ensures behind { IfOk result (λ n. n ≤ target + 1) }
    ensures err { OnErr result (StopsFailing (S.source source.old) (S.source source.new)) }
{
    let (width, height) = source.size();
    if target < u64::from(height) {
        advance(source, row, 3 * width as usize, taken, target as u32)?;
        Ok(target as u32 + 1)
    } else {
        row.fill(u16::MAX);
        Ok(taken)
    }
}
