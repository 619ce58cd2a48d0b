//! Ways to read the next value of a column. A way for one of the most frequent types tests for that type first, so
//! that a loop over values contains its reader and makes no call for each value.
use orc_column_reader::{ValueSource, next_size};
use orc_directory::StripeFault;
use orc_values::{Own, Scalar, Tree};

/// A way to read the next value of a column of any type.
pub(crate) trait NextValue {
    ghost use Rattle.std.specs.Prelude.{◌≡◌, ◌≢◌, ◌∷◌, [], ℕ, suc, Bool, true, false, IfOk, IfErr, OnOk, OnErr};
    ghost use Rattle.orc_values.specs.Cells.{is_value};
    ghost use Rattle.orc_values.specs.Own.{own_cell};
    ghost use Rattle.orc_values.specs.Views.{shape};
    ghost use Rattle.orc_stats.specs.Kinds.{is_of, kind_of};
    ghost use Rattle.orc_column_reader.specs.Fronts.{Leaves, Lacks};
    ghost use Rattle.orc_column_reader.specs.ReaderFaults.{ValuesMeet};
    ghost use Rattle.orc_directory.specs.declared.fault.StripeFault.{StripeFault as Fault};
    ghost use Rattle.orc_directory.specs.declared.fault.StripeFault.TheVariants.{OutOfMemory};
    ghost use Rattle.orc_column_walk.specs.OwnLeft.{OwnValuesLeft, children};
    ghost use Rattle.orc_column_walk.specs.Passed.{own_children};

    /// Reads the column's next value, without children.
    fn next<'a>(tree: &Tree, source: &mut ValueSource<'a>) -> Result<Own<'a>, StripeFault>
        ensures found { IfOk result (λ own. Leaves (OwnValuesLeft (shape tree.now) source.old)
            (OwnValuesLeft (shape tree.now) source.new) (own_cell own ∷ [])) }
        ensures kind { IfOk result (λ own. is_of (kind_of (shape tree.now)) (own_cell own) ≡ true) }
        ensures children { IfOk result (λ own. own_children own ≡ children (shape tree.now) (own_cell own ∷ [])) }
        ensures value { IfOk result (λ own. is_value (own_cell own) ≡ true) }
        ensures none { OnErr result (Lacks (OwnValuesLeft (shape tree.now) source.old) 1) }
        ensures before { OnOk result ((all : Bool) (n : ℕ) (f : Fault)
            → ValuesMeet (shape tree.now) source.new all n f
            → ValuesMeet (shape tree.now) source.old all (suc n) f) }
        ensures fault { IfErr result (λ cause. cause ≢ OutOfMemory
            → (n : ℕ) → ValuesMeet (shape tree.now) source.old false (suc n) cause) };
}

/// Reads values of any type.
pub(crate) struct AnyValues;

impl NextValue for AnyValues {
    #[inline(never)]
    fn next<'a>(tree: &Tree, source: &mut ValueSource<'a>) -> Result<Own<'a>, StripeFault> {
        match tree {
            Tree::Scalar(kind, _) => source.next_scalar(*kind),
            Tree::List(_, _) => Ok(Own::List(next_size(source)?)),
            Tree::Map(_, _, _) => Ok(Own::Map(next_size(source)?)),
            Tree::Struct(_, _) => Ok(Own::Struct),
        }
    }
}

/// Reads values of INT and LONG first.
pub(crate) struct NumberValues;

impl NextValue for NumberValues {
    #[inline(always)]
    fn next<'a>(tree: &Tree, source: &mut ValueSource<'a>) -> Result<Own<'a>, StripeFault> {
        match tree {
            Tree::Scalar(kind, _) => match kind {
                Scalar::Long => source.next_scalar(Scalar::Long),
                Scalar::Int => source.next_scalar(Scalar::Int),
                _ => AnyValues::next(tree, source),
            },
            _ => AnyValues::next(tree, source),
        }
    }
}

/// Reads values of STRING first.
pub(crate) struct TextValues;

impl NextValue for TextValues {
    #[inline(always)]
    fn next<'a>(tree: &Tree, source: &mut ValueSource<'a>) -> Result<Own<'a>, StripeFault> {
        match tree {
            Tree::Scalar(Scalar::String, _) => source.next_scalar(Scalar::String),
            _ => AnyValues::next(tree, source),
        }
    }
}

/// Reads values of lists first.
pub(crate) struct ListValues;

impl NextValue for ListValues {
    #[inline(always)]
    fn next<'a>(tree: &Tree, source: &mut ValueSource<'a>) -> Result<Own<'a>, StripeFault> {
        match tree {
            Tree::List(_, _) => Ok(Own::List(next_size(source)?)),
            _ => AnyValues::next(tree, source),
        }
    }
}
