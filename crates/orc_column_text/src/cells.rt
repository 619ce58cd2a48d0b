//! The text of a column's cells, one after the other, as the readers of its streams have them.
ghost use Rattle.std.specs.Prelude.{◌≡◌, ◌≢◌, ◌+◌, ◌<◌, ◌≤◌, ◌^◌, ◌++◌, ◌∷◌, [], ℕ, suc, Bool, false, IfErr, OnOk, length};
ghost use Rattle.orc_values.specs.Shapes.{width, widths};
ghost use Rattle.orc_values.specs.Views.{shape, fields as fields_view};
ghost use Rattle.orc_column_reader.specs.Fronts.{Lacks};
ghost use Rattle.orc_column_reader.specs.Columns.{CellsLeft, OwnLeft, ScalarLeft, ListsOf, MapsOf, PairsLeft, FieldsLeft, column_of, marks_of};
ghost use Rattle.orc_column_reader.specs.ReaderFaults.{CellsMeet, OwnMeet, ScalarMeets, ListsOfMeet, MapsOfMeet, PairsMeet, FieldsMeet};
ghost use Rattle.orc_directory.specs.declared.fault.StripeFault.{StripeFault as Fault};
ghost use Rattle.orc_directory.specs.declared.fault.StripeFault.TheVariants.{OutOfMemory};
ghost use Rattle.orc_json_printer.specs.LaidOut.{IsLaidOut, AreFieldsLaidOut, AreColumnsOf, AreMembersOf};
ghost use Rattle.orc_json_printer.specs.Layouts.{text_by, leaf_text, pair_text, pair_texts, part, member_parts, parts_text};
ghost use Rattle.orc_column_text.specs.Regions.{field_at, columns_before, readers_at, PrintedMember};
ghost use Rattle.orc_column_text.specs.Taken.{IsNoGrowth, Printed, PrintedValue, PrintedAll};
ghost use Rattle.orc_column_text.specs.Texts.{comma_texts};

use orc_column_reader::{ColumnReader, ValueSource, next_present, next_size};
use orc_directory::StripeFault;
use orc_json_printer::TextOutput;
use orc_json_printer::layout::{FieldColumns, Layout, Member, PairLayout};
use orc_json_printer::leaf_text::push_own;
use orc_json_printer::printing::push_comma_if;
use orc_values::{Field, Scalar, Tree, width_of};

/// Puts the text of a column's next cell, by a layout of the column's type. What is put before a refusal is left open.
/// No memory is wanted but what the output grows by.
#[cycle(cells)]
pub fn push_cell<T: TextOutput>(
    tree: &Tree,
    layout: &Layout,
    readers: &mut [ColumnReader<'_>],
    out: &mut T,
) -> Result<(), StripeFault>
    requires counted { length readers.old ≡ width (shape tree.now) }
    requires laid_out { IsLaidOut (shape tree.now) layout.now }
    // Where each column of the type has a reader, the layout's text of the next cell is put, and
    // the cells behind it are left.
    ensures found { OnOk result (Printed T.holds (CellsLeft (shape tree.now) readers.old)
        (CellsLeft (shape tree.now) readers.new) (text_by layout.now) out.old out.new) }
    // A refusal other than want of memory stands, and any where the output wants none: the readers
    // lack a cell. A fault is one that they meet, now or after the cells before.
    ensures none { IfErr result (λ fault. IsNoGrowth T.grows fault → Lacks (CellsLeft (shape tree.now) readers.old) 1) }
    ensures before { OnOk result ((all : Bool) (n : ℕ) (f : Fault) → CellsMeet (shape tree.now) readers.new all n f
        → CellsMeet (shape tree.now) readers.old all (suc n) f) }
    ensures fault { IfErr result (λ cause. cause ≢ OutOfMemory
        → (n : ℕ) → CellsMeet (shape tree.now) readers.old false (suc n) cause) }
{
    if !next_present(&mut readers[0])? {
        out.put(b"null")?;
        return Ok(());
    }
    push_value(tree, layout, readers, out)
}

/// Puts the text of a column's next value. Its marks stay as they are.
#[cycle(cells)]
fn push_value<T: TextOutput>(
    tree: &Tree,
    layout: &Layout,
    readers: &mut [ColumnReader<'_>],
    out: &mut T,
) -> Result<(), StripeFault>
    requires counted { length readers.old ≡ width (shape tree.now) }
    requires laid_out { IsLaidOut (shape tree.now) layout.now }
    ensures found { OnOk result (PrintedValue T.holds (OwnLeft (shape tree.now) readers.old)
        (OwnLeft (shape tree.now) readers.new) (text_by layout.now) out.old out.new) }
    ensures column { OnOk result (column_of readers.new ≡ column_of readers.old) }
    ensures marks { OnOk result (marks_of readers.new ≡ marks_of readers.old) }
    ensures none { IfErr result (λ fault. IsNoGrowth T.grows fault → Lacks (OwnLeft (shape tree.now) readers.old) 1) }
    ensures before { OnOk result ((all : Bool) (n : ℕ) (f : Fault) → OwnMeet (shape tree.now) readers.new all n f
        → OwnMeet (shape tree.now) readers.old all (suc n) f) }
    ensures fault { IfErr result (λ cause. cause ≢ OutOfMemory
        → (n : ℕ) → OwnMeet (shape tree.now) readers.old false (suc n) cause) }
{
    match tree {
        Tree::Scalar(kind, _) => push_scalar(&mut readers[0].source, *kind, out),
        Tree::List(element, _) => match layout {
            Layout::List(inner) => push_list(element, inner, readers, out),
            _ => unreachable!(),
        },
        Tree::Map(key, value, _) => match layout {
            Layout::Map(layouts) => push_map(key, value, layouts, readers, out),
            _ => unreachable!(),
        },
        Tree::Struct(fields, _) => match layout {
            Layout::Struct(members, columns) => {
                out.put_byte(b'{')?;
                push_members(fields, members, columns, &mut readers[1..], out)
            }
            _ => unreachable!(),
        },
    }
}

/// Puts the text of the next value of a column of a kind that contains no other.
fn push_scalar<T: TextOutput>(
    source: &mut ValueSource<'_>,
    kind: Scalar,
    out: &mut T,
) -> Result<(), StripeFault>
    ensures found { OnOk result (PrintedValue T.holds (ScalarLeft kind source.old) (ScalarLeft kind source.new)
        leaf_text out.old out.new) }
    ensures column { source.new.column ≡ source.old.column }
    ensures none { IfErr result (λ fault. IsNoGrowth T.grows fault → Lacks (ScalarLeft kind source.old) 1) }
    ensures before { OnOk result ((all : Bool) (n : ℕ) (f : Fault) → ScalarMeets kind source.new all n f
        → ScalarMeets kind source.old all (suc n) f) }
    ensures fault { IfErr result (λ cause. cause ≢ OutOfMemory
        → (n : ℕ) → ScalarMeets kind source.old false (suc n) cause) }
{
    let own = source.next_scalar(kind)?;
    push_own(own, out)?;
    Ok(())
}

/// Puts the elements of the next list, in brackets.
#[cycle(cells)]
fn push_list<T: TextOutput>(
    element: &Tree,
    layout: &Layout,
    readers: &mut [ColumnReader<'_>],
    out: &mut T,
) -> Result<(), StripeFault>
    requires counted { length readers.old ≡ 1 + width (shape element.now) }
    requires laid_out { IsLaidOut (shape element.now) layout.now }
    ensures found { OnOk result (Printed T.holds (ListsOf (shape element.now) readers.old)
        (ListsOf (shape element.now) readers.new)
        (λ cells. 91 ∷ (comma_texts (text_by layout.now) false cells ++ 93 ∷ [])) out.old out.new) }
    ensures column { OnOk result (column_of readers.new ≡ column_of readers.old) }
    ensures marks { OnOk result (marks_of readers.new ≡ marks_of readers.old) }
    ensures none { IfErr result (λ fault. IsNoGrowth T.grows fault → Lacks (ListsOf (shape element.now) readers.old) 1) }
    ensures before { OnOk result ((all : Bool) (n : ℕ) (f : Fault) → ListsOfMeet (shape element.now) readers.new all n f
        → ListsOfMeet (shape element.now) readers.old all (suc n) f) }
    ensures fault { IfErr result (λ cause. cause ≢ OutOfMemory
        → (n : ℕ) → ListsOfMeet (shape element.now) readers.old false (suc n) cause) }
{
    let size = next_size(&mut readers[0].source)?;
    out.put_byte(b'[')?;
    push_cells(element, layout, &mut readers[1..], size, out)?;
    out.put_byte(b']')?;
    Ok(())
}

/// Puts the text of the next cells of a column, so many, with commas between them.
#[cycle(cells)]
fn push_cells<T: TextOutput>(
    tree: &Tree,
    layout: &Layout,
    readers: &mut [ColumnReader<'_>],
    count: u64,
    out: &mut T,
) -> Result<(), StripeFault>
    requires counted { length readers.old ≡ width (shape tree.now) }
    requires laid_out { IsLaidOut (shape tree.now) layout.now }
    ensures found { OnOk result (PrintedAll T.holds (CellsLeft (shape tree.now) readers.old)
        (CellsLeft (shape tree.now) readers.new) (comma_texts (text_by layout.now) false) count out.old out.new) }
    ensures none { IfErr result (λ fault. IsNoGrowth T.grows fault → Lacks (CellsLeft (shape tree.now) readers.old) count) }
    ensures before { OnOk result ((all : Bool) (n : ℕ) (f : Fault) → CellsMeet (shape tree.now) readers.new all n f
        → CellsMeet (shape tree.now) readers.old all (count + n) f) }
    ensures fault { IfErr result (λ cause. cause ≢ OutOfMemory
        → (n : ℕ) → CellsMeet (shape tree.now) readers.old false (count + n) cause) }
{
    let mut later = false;
    for taken in 0..count {
        push_comma_if(later, out)?;
        push_cell(tree, layout, readers, out)?;
        later = true;
    }
    Ok(())
}

/// Puts the pairs of the next map, in brackets.
#[cycle(cells)]
fn push_map<T: TextOutput>(
    key: &Tree,
    value: &Tree,
    layouts: &PairLayout,
    readers: &mut [ColumnReader<'_>],
    out: &mut T,
) -> Result<(), StripeFault>
    requires counted { length readers.old ≡ 1 + (width (shape key.now) + width (shape value.now)) }
    requires key { IsLaidOut (shape key.now) layouts.now.key }
    requires value { IsLaidOut (shape value.now) layouts.now.value }
    ensures found { OnOk result (Printed T.holds (MapsOf (shape key.now) (shape value.now) readers.old)
        (MapsOf (shape key.now) (shape value.now) readers.new)
        (λ pairs. 91 ∷ (comma_texts (pair_text (pair_texts layouts.now)) false pairs ++ 93 ∷ []))
        out.old out.new) }
    ensures column { OnOk result (column_of readers.new ≡ column_of readers.old) }
    ensures marks { OnOk result (marks_of readers.new ≡ marks_of readers.old) }
    ensures none { IfErr result (λ fault. IsNoGrowth T.grows fault
        → Lacks (MapsOf (shape key.now) (shape value.now) readers.old) 1) }
    ensures before { OnOk result ((all : Bool) (n : ℕ) (f : Fault)
        → MapsOfMeet (shape key.now) (shape value.now) readers.new all n f
        → MapsOfMeet (shape key.now) (shape value.now) readers.old all (suc n) f) }
    ensures fault { IfErr result (λ cause. cause ≢ OutOfMemory
        → (n : ℕ) → MapsOfMeet (shape key.now) (shape value.now) readers.old false (suc n) cause) }
{
    let size = next_size(&mut readers[0].source)?;
    out.put_byte(b'[')?;
    push_pairs(key, value, layouts, &mut readers[1..], size, out)?;
    out.put_byte(b']')?;
    Ok(())
}

/// Puts the text of the next pairs of a map's columns, so many, with commas between them.
#[cycle(cells)]
fn push_pairs<T: TextOutput>(
    key: &Tree,
    value: &Tree,
    layouts: &PairLayout,
    readers: &mut [ColumnReader<'_>],
    count: u64,
    out: &mut T,
) -> Result<(), StripeFault>
    requires counted { length readers.old ≡ width (shape key.now) + width (shape value.now) }
    requires key { IsLaidOut (shape key.now) layouts.now.key }
    requires value { IsLaidOut (shape value.now) layouts.now.value }
    ensures found { OnOk result (PrintedAll T.holds (PairsLeft (shape key.now) (shape value.now) readers.old)
        (PairsLeft (shape key.now) (shape value.now) readers.new)
        (comma_texts (pair_text (pair_texts layouts.now)) false) count out.old out.new) }
    ensures none { IfErr result (λ fault. IsNoGrowth T.grows fault
        → Lacks (PairsLeft (shape key.now) (shape value.now) readers.old) count) }
    ensures before { OnOk result ((all : Bool) (n : ℕ) (f : Fault)
        → PairsMeet (shape key.now) (shape value.now) readers.new all n f
        → PairsMeet (shape key.now) (shape value.now) readers.old all (count + n) f) }
    ensures fault { IfErr result (λ cause. cause ≢ OutOfMemory
        → (n : ℕ) → PairsMeet (shape key.now) (shape value.now) readers.old false (count + n) cause) }
{
    let mut later = false;
    for taken in 0..count {
        push_comma_if(later, out)?;
        push_pair(key, value, layouts, readers, out)?;
        later = true;
    }
    Ok(())
}

/// Returns the number of columns of a type, without a call if the type contains no other.
fn own_width(tree: &Tree) -> usize
    requires { width (shape tree.now) < 2 ^ 64 }
    ensures { result ≡ width (shape tree.now) }
{
    match tree {
        Tree::Scalar(_, _) => 1,
        _ => width_of(tree),
    }
}

/// Puts the text of the next pair of a map: its key and its value, in brackets.
#[cycle(cells)]
fn push_pair<T: TextOutput>(
    key: &Tree,
    value: &Tree,
    layouts: &PairLayout,
    readers: &mut [ColumnReader<'_>],
    out: &mut T,
) -> Result<(), StripeFault>
    requires counted { length readers.old ≡ width (shape key.now) + width (shape value.now) }
    requires key { IsLaidOut (shape key.now) layouts.now.key }
    requires value { IsLaidOut (shape value.now) layouts.now.value }
    ensures found { OnOk result (Printed T.holds (PairsLeft (shape key.now) (shape value.now) readers.old)
        (PairsLeft (shape key.now) (shape value.now) readers.new) (pair_text (pair_texts layouts.now))
        out.old out.new) }
    ensures none { IfErr result (λ fault. IsNoGrowth T.grows fault
        → Lacks (PairsLeft (shape key.now) (shape value.now) readers.old) 1) }
    ensures before { OnOk result ((all : Bool) (n : ℕ) (f : Fault)
        → PairsMeet (shape key.now) (shape value.now) readers.new all n f
        → PairsMeet (shape key.now) (shape value.now) readers.old all (suc n) f) }
    ensures fault { IfErr result (λ cause. cause ≢ OutOfMemory
        → (n : ℕ) → PairsMeet (shape key.now) (shape value.now) readers.old false (suc n) cause) }
{
    let own = own_width(key);
    out.put_byte(b'[')?;
    push_cell(key, &layouts.key, &mut readers[..own], out)?;
    out.put_byte(b',')?;
    push_cell(value, &layouts.value, &mut readers[own..], out)?;
    out.put_byte(b']')?;
    Ok(())
}

/// Puts the members of the next struct, in the order of their names, and the closing brace. Columns don't depend on
/// one another, so each field is read where its member comes.
#[cycle(cells)]
fn push_members<T: TextOutput>(
    fields: &Vec<Field>,
    members: &[Member],
    columns: &Vec<FieldColumns>,
    readers: &mut [ColumnReader<'_>],
    out: &mut T,
) -> Result<(), StripeFault>
    requires counted { length readers.old ≡ widths (fields_view fields.now.items) }
    requires as_many { length members.now ≡ length fields.now.items }
    requires columns { AreColumnsOf (fields_view fields.now.items) 0 columns.now.items }
    requires members { AreMembersOf columns.now.items 0 (member_parts members.now) }
    requires laid_out { AreFieldsLaidOut (fields_view fields.now.items) columns.now.items members.now }
    ensures found { OnOk result (Printed T.holds (FieldsLeft (fields_view fields.now.items) readers.old)
        (FieldsLeft (fields_view fields.now.items) readers.new) (parts_text (member_parts members.now))
        out.old out.new) }
    ensures none { IfErr result (λ fault. IsNoGrowth T.grows fault
        → Lacks (FieldsLeft (fields_view fields.now.items) readers.old) 1) }
    ensures before { OnOk result ((all : Bool) (n : ℕ) (f : Fault)
        → FieldsMeet (fields_view fields.now.items) readers.new all n f
        → FieldsMeet (fields_view fields.now.items) readers.old all (suc n) f) }
    ensures fault { IfErr result (λ cause. cause ≢ OutOfMemory
        → (n : ℕ) → FieldsMeet (fields_view fields.now.items) readers.old false (suc n) cause) }
{
    for member in members {
        let own = columns[member.place];
        push_member(fields, member, own, readers, out)?;
    }
    out.put_byte(b'}')?;
    Ok(())
}

/// Puts a member of the next struct: its key, and the cell of the field at its place, whose columns these are.
#[cycle(cells)]
fn push_member<T: TextOutput>(
    fields: &Vec<Field>,
    member: &Member,
    own: FieldColumns,
    readers: &mut [ColumnReader<'_>],
    out: &mut T,
) -> Result<(), StripeFault>
    requires counted { length readers.old ≡ widths (fields_view fields.now.items) }
    requires there { member.now.place < length fields.now.items }
    requires within { own.first + own.count ≤ length readers.old }
    requires first { own.first ≡ columns_before (fields_view fields.now.items) member.now.place }
    requires count { own.count ≡ width (field_at (fields_view fields.now.items) member.now.place) }
    requires laid_out { IsLaidOut (field_at (fields_view fields.now.items) member.now.place) member.now.layout }
    ensures found { OnOk result (PrintedMember T.holds (fields_view fields.now.items) (part member.now)
        readers.old readers.new out.old out.new) }
    ensures none { IfErr result (λ fault. IsNoGrowth T.grows fault
        → Lacks (CellsLeft (field_at (fields_view fields.now.items) member.now.place)
        (readers_at (fields_view fields.now.items) member.now.place readers.old)) 1) }
    ensures fault { IfErr result (λ cause. cause ≢ OutOfMemory
        → (n : ℕ) → CellsMeet (field_at (fields_view fields.now.items) member.now.place)
        (readers_at (fields_view fields.now.items) member.now.place readers.old) false (suc n) cause) }
{
    let tree = &fields[member.place].tree;
    out.put(&member.key)?;
    push_cell(
        tree,
        &member.layout,
        &mut readers[own.first..own.first + own.count],
        out,
    )
}
