//! The text of a schema, written and read.
ghost use Rattle.std.specs.Prelude.{◌≡◌, IfOk, IfErr, MatchResult, string_bytes};
ghost use Rattle.orc_values.specs.Shapes.{Shape};
ghost use Rattle.orc_trees.specs.SchemaText as spec;
ghost use Rattle.orc_types.specs.Schemas.{HasText};
ghost use Rattle.orc_trees.specs.TextFaults.{TextFault};
ghost use Rattle.orc_trees.specs.declared.fault.TypeFault.TheVariants.{OutOfMemory};

use crate::preorder::MOST_TYPES;
use crate::schema::Schema;
use orc_trees::{TypeFault, is_struct, put_tree, whole_tree};
use orc_values::width_of;
use std::alloc::Global;

impl Schema {
    /// Returns the schema's text: `boolean`, `tinyint`, `smallint`, `int`, `bigint`, `string`, `binary`, `date`,
    /// `array<T>`, `map<K,V>` and `struct<name:T,..>`, with no spaces (ORC specification, "Types"). It has the kinds
    /// and the names, and no other field that types keep. `parse` reads it as these kinds and names.
    ///
    /// A name of one or more ASCII letters, digits and underscores stands as it is. Any other name stands in
    /// backticks, in which a backtick and a backslash are doubled, and a control character is `\u00` and the two
    /// hexadecimal digits of its number, in lower case: so the text is one line.
    ///
    /// # Errors
    ///
    /// `OutOfMemory` if there is no memory for the text.
    pub fn text(&self, alloc: Global) -> Result<String, TypeFault>
        // A returned text is the text of the schema's kinds and names.
        ensures found { IfOk result (λ text. string_bytes text ≡ spec.text self.now) }
        // The only error is `OutOfMemory`.
        ensures fault { IfErr result (λ fault. fault ≡ OutOfMemory) }
    {
        let mut text = String::new(alloc);
        put_tree(&mut text, self.tree())?;
        Ok(text)
    }

    /// Reads a schema's text, as `text` writes it. The types of the schema keep no other fields (ORC specification,
    /// "Types").
    ///
    /// # Errors
    ///
    /// `BadText` with the place where the text goes wrong, or where a wrong name begins; `TooDeep` above 32 levels;
    /// `RootNotStruct` if it is the text of another type; `TooMany` above 4,096 types; `OutOfMemory`. Which of several
    /// is returned isn't fixed.
    pub fn parse(alloc: Global, text: &str) -> Result<Schema, TypeFault>
        // A returned schema is within the limits, `text` is its text, and its types keep no other fields.
        ensures found { IfOk result (λ found. HasText found text.now) }
        // If `text` is the text of a schema within the limits whose types keep no other fields, then `parse` returns
        // this schema, or fails with `OutOfMemory`.
        ensures only { (s : Shape)
            → HasText s text.now
            → MatchResult result (λ found. found ≡ s) (λ fault. fault ≡ OutOfMemory) }

        // An error is `TooDeep`, `TooMany`, `RootNotStruct`, `BadText` or `OutOfMemory`. `TooDeep` comes only if `text`
        // begins with 32 types that are open, one inside the other. `TooMany` comes only if `text` is the text of a
        // type that has more than 4,096 types in all. `RootNotStruct` comes only if `text` is the text of a type other
        // than a STRUCT. `BadText` has a place of at most the length of `text`, and comes only if `text` isn't the text
        // of any type. The names of these types are UTF-8, and the types keep no other fields.
        ensures fault { IfErr result (TextFault text.now) }
    {
        let tree = whole_tree(alloc, text)?;
        if !is_struct(&tree) {
            return Err(TypeFault::RootNotStruct);
        }
        let width = width_of(&tree);
        if width > MOST_TYPES {
            return Err(TypeFault::TooMany);
        }
        Ok(Schema::from_tree(alloc, tree)?)
    }
}
