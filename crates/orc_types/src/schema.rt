//! Schemas: a tree of types, and the list of its types in pre-order, which is what a file has.
ghost use Rattle.std.specs.Prelude.{◌≡◌, ◌≤◌, IfOk, IfErr, MatchResult, ◌==◌};
ghost use Rattle.std.specs.Cmp.{partial_equiv_from_equiv};
ghost use Rattle.std.specs.Cmp.Lexicographic.{pointwise};
ghost use Rattle.orc_values.specs.Shapes.{Shape, width};
ghost use Rattle.orc_wire.specs.Types.{types as spec_types};
ghost use Rattle.orc_types.specs.Schemas.{IsSchema, HasTypes, AllKept, same_node, same_types, same_types_equiv};
ghost use Rattle.orc_types.specs.Faults.{TypesFault};
ghost use Rattle.orc_json_rows.specs.FieldNames.{is_distinct as distinct_names};
ghost use Rattle.orc_values.specs.Views.{shape};
ghost use Rattle.orc_trees.specs.declared.fault.TypeFault.TheVariants.{OutOfMemory};

use crate::copies::copy_types;
use crate::listing::types_of;
use crate::preorder::tree_of;
use orc_json_rows::is_distinct;
use orc_trees::TypeFault;
use orc_values::Tree;
use orc_wire::{Bytes, TypeMsg};
use std::alloc::{AllocError, Global};
use std::marker::Model;

/// A schema: a tree of types whose root is a STRUCT, within the limits of 4,096 types and 32
/// levels, and the list of the types in pre-order.
#[derive(Debug, Drop)]
pub struct Schema {
    types: Vec<TypeMsg>,
    tree: Tree,
    // whether no struct names a field twice
    distinct: bool,
}

impl Model for Schema {
    ghost use Rattle.orc_values.specs.Shapes.{Shape};
    ghost use Rattle.orc_types.specs.Schemas.{Keeps};
    ghost use Rattle.orc_values.specs.Views.{shape};
    ghost use Rattle.orc_values.specs.Coding.{coded_shape};

    ghost Value = { Shape };

    ghost coded = { coded_shape };

    ghost view = { λ s. shape s.tree };

    ghost invariant = { λ s. Keeps (shape s.tree) s.types.items s.distinct };
}

impl Schema {
    /// The schema whose types these are, in pre-order. What each type keeps of its message has to be
    /// the fields above 3, as they stood.
    ///
    /// Refusals: `UnsupportedKind` of a kind that a column can't have here, `BadTree` where the kinds
    /// are known and yet the types are no tree's list (ORC specification, "Types"), `TooDeep` above
    /// 32 levels, `TooMany` above 4,096 types, `RootNotStruct`, `BadText(0)` where a field's name isn't
    /// UTF-8, and `OutOfMemory`. Which of several is answered is open.
    pub fn from_types(alloc: Global, types: &[TypeMsg]) -> Result<Schema, TypeFault>
        requires { AllKept types.now }
        // If each type keeps only fields with numbers above 3, then `types` are the types of a returned schema, in
        // pre-order, and the schema is within the limits.
        ensures found { IfOk result (λ found. HasTypes found types.now) }
        // If each type keeps only fields with numbers above 3 and `types` are the types of a schema within the limits,
        // in pre-order, then `from_types` returns this schema, or fails with `OutOfMemory`.
        ensures only { (s : Shape)
            → HasTypes s types.now
            → MatchResult result (λ found. found ≡ s) (λ fault. fault ≡ OutOfMemory) }

        // If each type keeps only fields with numbers above 3, then an error is `OutOfMemory` or is true of `types`.
        // `UnsupportedKind` names a kind that a type has and that no column can have. `BadTree` comes only if all kinds
        // are known and yet `types` aren't the types of any tree, in pre-order. `TooDeep` comes only if 32 steps lead
        // down from type 0, each from a LIST, a MAP or a STRUCT to one of its subtypes, which comes later in `types`.
        // `TooMany` comes only for more than 4,096 types. `RootNotStruct` comes only if there is no type, or type 0 is
        // no STRUCT. `BadText` has the place 0 and comes only if a field of a STRUCT has a name that isn't UTF-8.
        ensures fault { IfErr result (TypesFault types.now) }
    {
        let tree = tree_of(alloc, types)?;
        let types = copy_types(alloc, types)?;
        let distinct = is_distinct(alloc, &tree)?;
        Ok(Schema {
            types,
            tree,
            distinct,
        })
    }

    /// The schema of a tree.
    pub(crate) fn from_tree(alloc: Global, tree: Tree) -> Result<Schema, AllocError>
        requires { IsSchema (shape tree) }
        ensures { IfOk result (λ found. found ≡ shape tree) }
    {
        let types = types_of(alloc, &tree)?;
        let distinct = is_distinct(alloc, &tree)?;
        Ok(Schema {
            types,
            tree,
            distinct,
        })
    }

    /// The types, in pre-order.
    pub fn types(&self) -> &[TypeMsg]
        // The returned types are the schema's, in pre-order, and the schema is within the limits: its root is a STRUCT,
        // its names are UTF-8, it has at most 32 levels and 4,096 types, and each type keeps only fields with numbers
        // above 3.
        ensures same { result.now ≡ spec_types self.now 0 }
        ensures schema { IsSchema self.now }
    {
        &self.types
    }

    /// That a schema is within the limits, for a proof to cite. It does nothing: its contract is a law.
    pub fn limit_laws(&self)
        // The root is a STRUCT, names are texts, and there are at most 4,096 types and 32 levels.
        ensures { IsSchema self.now }
    {
        // the use of a field tells what is true of all
        let _ = &self.tree;
    }

    /// The number of columns: each type is one, the root column 0.
    pub fn width(&self) -> usize
        // The answer is the number of the schema's columns, of which there are at most 4,096.
        ensures same { result ≡ width self.now }
        ensures most { result ≤ 4096 }
    {
        self.types.len()
    }

    /// The tree of types, for what goes down it.
    pub fn tree(&self) -> &Tree
        // The schema's tree is lent, and it is within the limits.
        ensures same { shape result.now ≡ self.now }
        ensures schema { IsSchema self.now }
    {
        &self.tree
    }

    /// Whether no struct names a field twice.
    pub fn has_distinct_names(&self) -> bool
        // The answer says whether no struct, anywhere in the schema, names a field twice.
        ensures { result ≡ distinct_names self.now }
    {
        self.distinct
    }
}

/// Whether two lists have the same names.
fn equal_names(a: &[Bytes], b: &[Bytes]) -> bool
    ensures { result ≡ pointwise (pointwise ◌==◌) a.now b.now }
{
    if a.len() != b.len() {
        return false;
    }
    for (i, name) in a.iter().enumerate() {
        let other = &b[i];
        if name.as_slice() != other.as_slice() {
            return false;
        }
    }
    true
}

/// Whether two types are equal in each part, the bytes that they keep too.
fn equal_types(a: &TypeMsg, b: &TypeMsg) -> bool
    ensures { result ≡ same_node a.now b.now }
{
    a.kind == b.kind
        && a.subtypes.as_slice() == b.subtypes.as_slice()
        && equal_names(a.field_names.as_slice(), b.field_names.as_slice())
        && a.kept.as_slice() == b.kept.as_slice()
}

/// Whether two lists have the same types.
fn equal_lists(a: &[TypeMsg], b: &[TypeMsg]) -> bool
    ensures { result ≡ pointwise same_node a.now b.now }
{
    if a.len() != b.len() {
        return false;
    }
    for (i, t) in a.iter().enumerate() {
        let other = &b[i];
        if !equal_types(t, other) {
            return false;
        }
    }
    true
}

/// Schemas are equal where their types are, the bytes that these keep too.
impl PartialEq for Schema {
    ghost eq = { same_types };

    ghost laws = { partial_equiv_from_equiv same_types_equiv };

    fn eq(&self, other: &Schema) -> bool {
        equal_lists(self.types(), other.types())
    }
}

impl Eq for Schema {
    ghost laws = { same_types_equiv };
}
