//! Laws of schemas and their texts. Each function does nothing: its contract is what it is for.
ghost use Rattle.std.specs.Prelude.{◌≡◌, ◌≢◌, ◌↔◌, ◌⊎◌, ℕ, List, true};
ghost use Rattle.std.specs.Char.{is_control};
ghost use Rattle.std.specs.Str.{NoCharPasses};
ghost use Rattle.orc_values.specs.Shapes.{Shape};
ghost use Rattle.orc_wire.specs.Types.{types};
ghost use Rattle.orc_wire.specs.declared.type_msg.TypeMsg.{TypeMsg};
ghost use Rattle.orc_types.specs.Schemas.{IsSchema, HasTypes, AllKept, same_types, HasText};
ghost use Rattle.orc_types.specs.Faults.{TypesFault};
ghost use Rattle.orc_trees.specs.SchemaText.{text, bare};
ghost use Rattle.orc_trees.specs.TextFaults.{TextFault};
ghost use Rattle.orc_trees.specs.declared.fault.TypeFault.{TypeFault};
ghost use Rattle.orc_trees.specs.declared.fault.TypeFault.TheVariants.{OutOfMemory};

/// Laws of schemas: a list of types is of one tree at most; schemas compare equal exactly where they
/// are one tree; of the faults that stand, none but want of memory goes with a schema; and types whose
/// kept bytes are fields above 3 are a schema's or have a fault other than want of memory.
pub fn schema_laws()
    // A list of types has one tree at most.
    ensures one_tree { (s t : Shape) → types s 0 ≡ types t 0 → s ≡ t }
    // Two schemas compare equal exactly where they are one tree, kept bytes included.
    ensures equal { (s t : Shape) → (same_types s t ≡ true) ↔ (s ≡ t) }
    // Where a fault other than want of memory stands, the types are no schema's.
    ensures none { (ts : List TypeMsg) (s : Shape) (fault : TypeFault)
        → HasTypes s ts
        → TypesFault ts fault
        → fault ≡ OutOfMemory }
    // Where kept bytes are fields above 3, a list of types is a schema's, or has a fault other than
    // want of memory.
    ensures cover { (ts : List TypeMsg)
        → AllKept ts
        → ((s : Shape) × HasTypes s ts) ⊎ ((fault : TypeFault) × (fault ≢ OutOfMemory) × TypesFault ts fault) }
{}

/// Laws of the texts of schemas: a text belongs to one schema at most, the text of every schema belongs to the schema
/// of its kinds and names, and it has no control character. A text that has a fault other than `OutOfMemory` belongs to
/// no schema.
pub fn schema_text_laws()
    // If `bytes` are the text of two schemas whose types keep no other fields, then these are the same schema.
    ensures one_schema { (bytes : List ℕ) (s t : Shape) → HasText s bytes → HasText t bytes → s ≡ t }
    // If `s` is a schema, then its text is the text of the schema that has the kinds and the names of `s` and whose types
    // keep no other fields.
    ensures kinds_and_names { (s : Shape) → IsSchema s → HasText (bare s) (text s) }
    // The text of a type has no control character, whatever its names are, so it is one line.
    ensures one_line { (s : Shape) → NoCharPasses is_control (text s) }
    // If `bytes` have a fault other than `OutOfMemory`, then they aren't the text of a schema whose types keep no other
    // fields.
    ensures none { (bytes : List ℕ) (s : Shape) (fault : TypeFault)
        → HasText s bytes
        → TextFault bytes fault
        → fault ≡ OutOfMemory }
{}
