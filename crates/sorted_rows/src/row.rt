// Memory in rows of equal length: in each row its count, then that many loads in rising order,
// then zeros.
ghost use Rattle.std.specs.Prelude.{◌≡◌, ◌+◌, ◌*◌, ◌≤◌, length};
ghost use Rattle.sorted_rows.specs.Row.{entries, place, Insertable, row_with, Removable, row_without, Able};
ghost use Rattle.sorted_rows.specs.Row.{changed};
ghost use Rattle.sorted_rows.specs.RowMemory.{loads_of_row, RowChanged};

/// What can be done with a load in a row.
/// A closure in its place would need clauses in each function that hands it on.
#[derive(Clone, Copy, PartialEq, Eq, Debug)]
pub(crate) enum Change {
    /// Put it in, where the row is not full.
    Insert,
    /// Take out the first load that is not below it, where there is one.
    Remove,
}

// The loads of a row.
fn loads(row: &[u16]) -> &[u16]
    ensures { result.now ≡ entries row.now }
{
    match row {
        [count, rest @ ..] => rest.get(..usize::from(*count)).unwrap_or(rest),
        [] => row,
    }
}

/// The loads of row a, of `size` rows of `row_limit` + 1 numbers; none where there is no such row.
/// Of a row that the memory cuts short, the loads that are there. Copies nothing.
#[tactic(auto, unfolding(crate::specs::RowMemory::row_of))]
pub(crate) fn row_loads(rows: &[u16], size: u16, row_limit: u8, a: usize) -> &[u16]
    ensures { result.now ≡ loads_of_row size row_limit rows.now a }
{
    if a >= usize::from(size) {
        return &[];
    }
    let width = usize::from(row_limit) + 1;
    let start = rows.len().min(a * width);
    let end = rows.len().min(start + width);
    loads(&rows[start..end])
}

/// The index of the first load that is not below b; how many there are, if each is below. Reads the
/// loads up to it.
pub(crate) fn position(loads: &[u16], b: usize) -> usize
    ensures first { result ≡ place loads.now b }
    ensures within { result ≤ length loads.now }
{
    loads
        .iter()
        .position(|x| usize::from(*x) >= b)
        .unwrap_or(loads.len())
}

// Puts b into a row that is not full.
fn insert(row: &mut [u16], b: u16)
    requires { length row.old ≤ 256 }
    ensures inserted { Insertable row.old b → row.new ≡ row_with row.old b }
    ensures kept { (Insertable row.old b → ⊥) → row.new ≡ row.old }
{
    let Some(&count) = row.first() else {
        return;
    };
    let n = usize::from(count);
    if n + 1 >= row.len() {
        return;
    }
    let k = position(loads(row), usize::from(b)) + 1;
    row[k..=n + 1].rotate_right(1);
    row[k] = b;
    row[0] = count + 1;
}

// Takes the first load that is not below b out of a row that has one.
fn remove(row: &mut [u16], b: u16)
    ensures removed { Removable row.old b → row.new ≡ row_without row.old b }
    ensures kept { (Removable row.old b → ⊥) → row.new ≡ row.old }
{
    let Some(&count) = row.first() else {
        return;
    };
    let n = usize::from(count);
    if n >= row.len() {
        return;
    }
    let k = position(loads(row), usize::from(b)) + 1;
    if k > n {
        return;
    }
    row[k..=n].rotate_left(1);
    row[n] = 0;
    row[0] = count - 1;
}

/// Puts b into row a where the row is not full, or takes the first load that is not below b out of
/// it where it has one. Else, and where the memory ends before the row does, nothing is written.
/// Writes within the row alone, its count and the loads from b on.
pub(crate) fn change_row(rows: &mut [u16], row_limit: u8, a: u16, b: u16, change: Change)
    ensures { RowChanged (Able change) (changed change) row_limit a b rows.old rows.new }
{
    let width = usize::from(row_limit) + 1;
    let start = usize::from(a) * width;
    if start + width <= rows.len() {
        let row = &mut rows[start..start + width];
        match change {
            Change::Insert => insert(row, b),
            Change::Remove => remove(row, b),
        }
    }
}
