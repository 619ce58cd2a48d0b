//! The cells of a column, one after the other: marks, values, and what lists, maps and structs have below them.
ghost use Rattle.std.specs.Prelude.{map, ◌≡◌, ◌≢◌, ◌+◌, ◌++◌, ℕ, suc, Bool, false, [], ◌∷◌, List, IfOk, IfErr, OnOk, length};
ghost use Rattle.orc_values.specs.Cells.{Atom, Cell, leaf};
ghost use Rattle.orc_values.specs.Own.{own_cell};
ghost use Rattle.orc_values.specs.Shapes.{width, widths};
ghost use Rattle.orc_values.specs.Views.{view, views, paired, cell_of_value, shape, fields as fields_view};
ghost use Rattle.orc_column_reader.specs.Fronts.{Leaves, Lacks};
ghost use Rattle.orc_column_reader.specs.Columns.{CellsLeft, OwnLeft, ListsOf, MapsOf, PairsLeft, FieldsLeft, column_of, marks_of};
ghost use Rattle.orc_column_reader.specs.ReaderFaults.{CellsMeet, OwnMeet, ListsOfMeet, MapsOfMeet, PairsMeet, FieldsMeet};
ghost use Rattle.orc_directory.specs.declared.fault.StripeFault.{StripeFault as Fault};
ghost use Rattle.orc_directory.specs.declared.fault.StripeFault.TheVariants.{OutOfMemory};

use orc_column_reader::{ColumnReader, next_present, next_size};
use orc_directory::StripeFault;
use orc_values::{Field, MapPair, Own, Row, Tree, Value, width_of};
use std::alloc::Global;
use std::borrow::{CowSlice, CowStr};

/// Returns a value of a kind that contains no other type.
fn value_of<'a>(own: Own<'a>) -> Value<'a>
    requires { (a : Atom) × (own_cell own ≡ leaf a) }
    ensures { cell_of_value result ≡ own_cell own.entry }
{
    match own {
        Own::Bool(truth) => Value::Bool(truth),
        Own::Int(number) => Value::Int(number),
        Own::Date(day) => Value::Date(day),
        Own::Text(text) => Value::Text(CowStr::Borrowed(text)),
        Own::Bytes(bytes) => Value::Bytes(CowSlice::Borrowed(bytes)),
        Own::Null | Own::List(_) | Own::Map(_) | Own::Struct => unreachable!(),
    }
}

/// Reads the next cell of a column, with all that it contains.
///
/// # Errors
///
/// - The errors of `next_mark`, `ValueSource::next_scalar` and `next_size`, for this column or one below it.
/// - `OutOfMemory`.
#[cycle(reader)]
pub fn next_cell<'a>(
    alloc: Global,
    tree: &Tree,
    readers: &mut [ColumnReader<'a>],
) -> Result<Row<'a>, StripeFault>
    requires { length readers.old ≡ width (shape tree.now) }
    // If there is one reader for each column of the type, and the call succeeds, then the cells that the readers had
    // left are the returned one, with all that it contains, followed by those left after the call.
    ensures found { IfOk result (λ row. Leaves (CellsLeft (shape tree.now) readers.old)
        (CellsLeft (shape tree.now) readers.new) (view row ∷ [])) }
    // If there is one reader for each column of the type, and the call fails other than with `OutOfMemory`, then the
    // readers have no further cell.
    ensures none { IfErr result (λ fault. fault ≢ OutOfMemory → Lacks (CellsLeft (shape tree.now) readers.old) 1) }
    // If there is one reader for each column of the type, and the call succeeds, then each error that the readers
    // meet after it with n cells to give is one that they met before with n + 1.
    ensures before { OnOk result ((all : Bool) (n : ℕ) (f : Fault) → CellsMeet (shape tree.now) readers.new all n f
        → CellsMeet (shape tree.now) readers.old all (suc n) f) }
    // If there is one reader for each column of the type, and the call fails other than with `OutOfMemory`, then the
    // error is one that the readers meet from their places before the call, whatever number of cells above 0 they
    // have to give.
    ensures fault { IfErr result (λ cause. cause ≢ OutOfMemory
        → (n : ℕ) → CellsMeet (shape tree.now) readers.old false (suc n) cause) }
{
    if !next_present(&mut readers[0])? {
        return Ok(None);
    }
    let value = next_value(alloc, tree, readers)?;
    Ok(Some(value))
}

/// Reads the next value of a column, with all that it contains. The column's marks stay as they are.
///
/// # Errors
///
/// - The errors of `ValueSource::next_scalar` and `next_size`, and for a column below also those of `next_mark`.
/// - `OutOfMemory`.
#[cycle(reader)]
#[inline(always)]
pub fn next_value<'a>(
    alloc: Global,
    tree: &Tree,
    readers: &mut [ColumnReader<'a>],
) -> Result<Value<'a>, StripeFault>
    requires { length readers.old ≡ width (shape tree.now) }
    // If there is one reader for each column of the type, and the call succeeds, then the values that the readers had
    // left are the returned one, with all that it contains, followed by those left after the call.
    ensures found { IfOk result (λ value. Leaves (OwnLeft (shape tree.now) readers.old)
        (OwnLeft (shape tree.now) readers.new) (cell_of_value value ∷ [])) }
    // If the call succeeds, then the column's number and its marks stay as they are.
    ensures column { OnOk result (column_of readers.new ≡ column_of readers.old) }
    ensures marks { IfOk result (λ _. marks_of readers.new ≡ marks_of readers.old) }
    // If there is one reader for each column of the type, and the call fails other than with `OutOfMemory`, then the
    // readers have no further value.
    ensures none { IfErr result (λ fault. fault ≢ OutOfMemory → Lacks (OwnLeft (shape tree.now) readers.old) 1) }
    // If there is one reader for each column of the type, and the call succeeds, then each error that the readers
    // meet after it with n values to give is one that they met before with n + 1.
    ensures before { OnOk result ((all : Bool) (n : ℕ) (f : Fault) → OwnMeet (shape tree.now) readers.new all n f
        → OwnMeet (shape tree.now) readers.old all (suc n) f) }
    // If there is one reader for each column of the type, and the call fails other than with `OutOfMemory`, then the
    // error is one that the readers meet from their places before the call, whatever number of values above 0 they
    // have to give.
    ensures fault { IfErr result (λ cause. cause ≢ OutOfMemory
        → (n : ℕ) → OwnMeet (shape tree.now) readers.old false (suc n) cause) }
{
    match tree {
        Tree::Scalar(kind, _) => Ok(value_of(readers[0].source.next_scalar(*kind)?)),
        Tree::List(element, _) => Ok(Value::List(next_list(alloc, element, readers)?)),
        Tree::Map(key, value, _) => Ok(Value::Map(next_map(alloc, key, value, readers)?)),
        Tree::Struct(fields, _) => {
            let mut cells = Vec::with_capacity(alloc, fields.len())?;
            next_fields(alloc, fields, &mut readers[1..], &mut cells)?;
            Ok(Value::Struct(cells))
        }
    }
}

/// Reads the elements of the next list.
#[cycle(reader)]
fn next_list<'a>(
    alloc: Global,
    element: &Tree,
    readers: &mut [ColumnReader<'a>],
) -> Result<Vec<Row<'a>>, StripeFault>
    requires { length readers.old ≡ 1 + width (shape element.now) }
    ensures found { IfOk result (λ rows. Leaves (ListsOf (shape element.now) readers.old)
        (ListsOf (shape element.now) readers.new) (views rows.items ∷ [])) }
    ensures column { OnOk result (column_of readers.new ≡ column_of readers.old) }
    ensures marks { IfOk result (λ _. marks_of readers.new ≡ marks_of readers.old) }
    ensures none { IfErr result (λ fault. fault ≢ OutOfMemory → Lacks (ListsOf (shape element.now) readers.old) 1) }
    ensures before { OnOk result ((all : Bool) (n : ℕ) (f : Fault) → ListsOfMeet (shape element.now) readers.new all n f
        → ListsOfMeet (shape element.now) readers.old all (suc n) f) }
    ensures fault { IfErr result (λ cause. cause ≢ OutOfMemory
        → (n : ℕ) → ListsOfMeet (shape element.now) readers.old false (suc n) cause) }
{
    let size = next_size(&mut readers[0].source)?;
    next_cells(alloc, element, &mut readers[1..], size)
}

/// Reads the pairs of the next map.
#[cycle(reader)]
fn next_map<'a>(
    alloc: Global,
    key: &Tree,
    value: &Tree,
    readers: &mut [ColumnReader<'a>],
) -> Result<Vec<MapPair<'a>>, StripeFault>
    requires { length readers.old ≡ 1 + (width (shape key.now) + width (shape value.now)) }
    ensures found { IfOk result (λ pairs. Leaves (MapsOf (shape key.now) (shape value.now) readers.old)
        (MapsOf (shape key.now) (shape value.now) readers.new) (map paired pairs.items ∷ [])) }
    ensures column { OnOk result (column_of readers.new ≡ column_of readers.old) }
    ensures marks { IfOk result (λ _. marks_of readers.new ≡ marks_of readers.old) }
    ensures none { IfErr result (λ fault. fault ≢ OutOfMemory
        → Lacks (MapsOf (shape key.now) (shape value.now) readers.old) 1) }
    ensures before { OnOk result ((all : Bool) (n : ℕ) (f : Fault)
        → MapsOfMeet (shape key.now) (shape value.now) readers.new all n f
        → MapsOfMeet (shape key.now) (shape value.now) readers.old all (suc n) f) }
    ensures fault { IfErr result (λ cause. cause ≢ OutOfMemory
        → (n : ℕ) → MapsOfMeet (shape key.now) (shape value.now) readers.old false (suc n) cause) }
{
    let size = next_size(&mut readers[0].source)?;
    next_pairs(alloc, key, value, &mut readers[1..], size)
}

/// Reads the next `count` pairs from the columns below a map.
#[cycle(reader)]
fn next_pairs<'a>(
    alloc: Global,
    key: &Tree,
    value: &Tree,
    readers: &mut [ColumnReader<'a>],
    count: u64,
) -> Result<Vec<MapPair<'a>>, StripeFault>
    requires { length readers.old ≡ width (shape key.now) + width (shape value.now) }
    ensures found { IfOk result (λ pairs. Leaves (PairsLeft (shape key.now) (shape value.now) readers.old)
        (PairsLeft (shape key.now) (shape value.now) readers.new) (map paired pairs.items)) }
    ensures counted { IfOk result (λ pairs. length (map paired pairs.items) ≡ count) }
    ensures none { IfErr result (λ fault. fault ≢ OutOfMemory
        → Lacks (PairsLeft (shape key.now) (shape value.now) readers.old) count) }
    ensures before { OnOk result ((all : Bool) (n : ℕ) (f : Fault)
        → PairsMeet (shape key.now) (shape value.now) readers.new all n f
        → PairsMeet (shape key.now) (shape value.now) readers.old all (count + n) f) }
    ensures fault { IfErr result (λ cause. cause ≢ OutOfMemory
        → (n : ℕ) → PairsMeet (shape key.now) (shape value.now) readers.old false (count + n) cause) }
{
    let mut pairs = Vec::new(alloc);
    for taken in 0..count {
        let pair = next_pair(alloc, key, value, readers)?;
        pairs.push(pair)?;
    }
    Ok(pairs)
}

/// Reads the next pair: a cell of the key's columns and one of the value's.
#[cycle(reader)]
fn next_pair<'a>(
    alloc: Global,
    key: &Tree,
    value: &Tree,
    readers: &mut [ColumnReader<'a>],
) -> Result<MapPair<'a>, StripeFault>
    requires { length readers.old ≡ width (shape key.now) + width (shape value.now) }
    ensures found { IfOk result (λ pair. Leaves (PairsLeft (shape key.now) (shape value.now) readers.old)
        (PairsLeft (shape key.now) (shape value.now) readers.new) (paired pair ∷ [])) }
    ensures none { IfErr result (λ fault. fault ≢ OutOfMemory
        → Lacks (PairsLeft (shape key.now) (shape value.now) readers.old) 1) }
    ensures before { OnOk result ((all : Bool) (n : ℕ) (f : Fault)
        → PairsMeet (shape key.now) (shape value.now) readers.new all n f
        → PairsMeet (shape key.now) (shape value.now) readers.old all (suc n) f) }
    ensures fault { IfErr result (λ cause. cause ≢ OutOfMemory
        → (n : ℕ) → PairsMeet (shape key.now) (shape value.now) readers.old false (suc n) cause) }
{
    let own = width_of(key);
    let first = next_cell(alloc, key, &mut readers[..own])?;
    let second = next_cell(alloc, value, &mut readers[own..])?;
    Ok(MapPair {
        key: first,
        value: second,
    })
}

/// Reads the next `count` cells of a column, with all that they contain.
///
/// # Errors
///
/// Those of `next_cell`.
#[cycle(reader)]
pub fn next_cells<'a>(
    alloc: Global,
    tree: &Tree,
    readers: &mut [ColumnReader<'a>],
    count: u64,
) -> Result<Vec<Row<'a>>, StripeFault>
    requires { length readers.old ≡ width (shape tree.now) }
    // If there is one reader for each column of the type, and the call succeeds, then the cells that the readers had
    // left are the returned ones, in order and with all that they contain, followed by those left after the call.
    ensures found { IfOk result (λ rows. Leaves (CellsLeft (shape tree.now) readers.old)
        (CellsLeft (shape tree.now) readers.new) (views rows.items)) }
    // If there is one reader for each column of the type, and the call succeeds, then it returns `count` cells.
    ensures counted { IfOk result (λ rows. length (views rows.items) ≡ count) }
    // If there is one reader for each column of the type, and the call fails other than with `OutOfMemory`, then the
    // readers have fewer than `count` cells left.
    ensures none { IfErr result (λ fault. fault ≢ OutOfMemory → Lacks (CellsLeft (shape tree.now) readers.old) count) }
    // If there is one reader for each column of the type, and the call succeeds, then each error that the readers
    // meet after it with n cells to give is one that they met before with `count` + n.
    ensures before { OnOk result ((all : Bool) (n : ℕ) (f : Fault) → CellsMeet (shape tree.now) readers.new all n f
        → CellsMeet (shape tree.now) readers.old all (count + n) f) }
    // If there is one reader for each column of the type, and the call fails other than with `OutOfMemory`, then the
    // error is one that the readers meet from their places before the call, whatever number of cells, at least
    // `count`, they have to give.
    ensures fault { IfErr result (λ cause. cause ≢ OutOfMemory
        → (n : ℕ) → CellsMeet (shape tree.now) readers.old false (count + n) cause) }
{
    let mut rows = Vec::new(alloc);
    for taken in 0..count {
        let row = next_cell(alloc, tree, readers)?;
        rows.push(row)?;
    }
    Ok(rows)
}

/// Puts the cells of the next struct, one for each field, after those that are there.
#[cycle(reader)]
fn next_fields<'a>(
    alloc: Global,
    fields: &[Field],
    readers: &mut [ColumnReader<'a>],
    cells: &mut Vec<Row<'a>>,
) -> Result<(), StripeFault>
    requires { length readers.old ≡ widths (fields_view fields.now) }
    ensures found { OnOk result ((more : List Cell) × (views cells.new.items ≡ views cells.old.items ++ more)
        × Leaves (FieldsLeft (fields_view fields.now) readers.old)
        (FieldsLeft (fields_view fields.now) readers.new) (more ∷ [])) }
    ensures none { IfErr result (λ fault. fault ≢ OutOfMemory
        → Lacks (FieldsLeft (fields_view fields.now) readers.old) 1) }
    ensures before { OnOk result ((all : Bool) (n : ℕ) (f : Fault)
        → FieldsMeet (fields_view fields.now) readers.new all n f
        → FieldsMeet (fields_view fields.now) readers.old all (suc n) f) }
    ensures fault { IfErr result (λ cause. cause ≢ OutOfMemory
        → (n : ℕ) → FieldsMeet (fields_view fields.now) readers.old false (suc n) cause) }
{
    match fields {
        [] => Ok(()),
        [first, others @ ..] => {
            let own = width_of(&first.tree);
            let cell = next_cell(alloc, &first.tree, &mut readers[..own])?;
            cells.push(cell)?;
            next_fields(alloc, others, &mut readers[own..], cells)
        }
    }
}
