//! Laws of fields and messages. Each function does nothing: its contract is what it is for.
ghost use Rattle.std.specs.Prelude.{◌≡◌, ◌↔◌, ℕ, ℤ, ◌++◌, ◌^◌, ◌<◌, length, List, [], Option, Bool, ◌⊎◌, true, false, not, ◌==◌};
ghost use Rattle.std.specs.List.{AllByRecursion};
ghost use Rattle.std.specs.Option.{option_map, unwrap_or, IfSome, IsSome};
ghost use Rattle.orc_bits.specs.Varint.{AllBytes};
ghost use Rattle.orc_bits.specs.Zigzag.{zig};
ghost use Rattle.orc_wire.specs.declared.fault.WireFault.{WireFault};
ghost use Rattle.orc_wire.specs.declared.column_stats.ColumnStats.{ColumnStats};
ghost use Rattle.orc_wire.specs.declared.column_stats.Metadata.{Metadata};
ghost use Rattle.orc_wire.specs.declared.column_stats.StripeStatistics.{StripeStatistics};
ghost use Rattle.orc_wire.specs.declared.row_index.RowIndexEntry.{RowIndexEntry};
ghost use Rattle.orc_wire.specs.declared.row_index.RowIndexMsg.{RowIndexMsg};
ghost use Rattle.orc_wire.specs.declared.encoding.Encoding.{Encoding};
ghost use Rattle.orc_wire.specs.declared.footer.Footer.{Footer};
ghost use Rattle.orc_wire.specs.declared.footer.UserMetadataItem.{UserMetadataItem};
ghost use Rattle.orc_wire.specs.declared.stats_records.BinaryStatistics.{BinaryStatistics};
ghost use Rattle.orc_wire.specs.declared.stats_records.BucketStatistics.{BucketStatistics};
ghost use Rattle.orc_wire.specs.declared.stats_records.CollectionStatistics.{CollectionStatistics};
ghost use Rattle.orc_wire.specs.declared.stats_records.DateStatistics.{DateStatistics};
ghost use Rattle.orc_wire.specs.declared.stats_records.IntegerStatistics.{IntegerStatistics};
ghost use Rattle.orc_wire.specs.declared.stats_records.StringStatistics.{StringStatistics};
ghost use Rattle.orc_wire.specs.declared.stripe_info.StripeInfo.{StripeInfo};
ghost use Rattle.orc_wire.specs.declared.stripe_footer.StreamMsg.{StreamMsg};
ghost use Rattle.orc_wire.specs.declared.stripe_footer.StripeFooter.{StripeFooter};
ghost use Rattle.orc_wire.specs.declared.post_script.PostScript.{PostScript};
ghost use Rattle.orc_wire.specs.declared.type_msg.TypeMsg.{TypeMsg};
ghost use Rattle.orc_wire.specs.Fields.{varint, sized, Item, IsField, HasField, IsFields, NoField};
ghost use Rattle.orc_wire.specs.Spells.{number_in, bytes_of_field, Spells, Faults};
ghost use Rattle.orc_wire.specs.Kinds.{number_part, small, signed, small_signed, flag, bytes_part, packed, message, kept_from, last, known, every_value, each, only};
ghost use Rattle.orc_wire.specs.Table.{newest, in_order, kept_texts, AreSmall, JoinsParts, JoinsSome, OnlyMessage};
ghost use Rattle.orc_wire.specs.Messages.{type_msg, footer};
ghost use Rattle.orc_wire.specs.CanonicalText.{number_text, sized_text, known_text, list_text, packed_text, shown_text};
ghost use Rattle.orc_wire.specs.CanonicalText.{flag_number};
ghost use Rattle.orc_wire.specs.CanonicalKinds.{AreBelow, AreKept};
ghost use Rattle.orc_wire.specs.CanonicalMessages.{encoding_text, stream_text, stripe_footer_text, post_script_text, type_text, stripe_info_text, user_metadata_text, footer_text, integer_stats_text, string_stats_text, bucket_stats_text, date_stats_text, binary_stats_text, collection_stats_text, column_stats_text, stripe_stats_text, metadata_text, row_index_entry_text, row_index_text};
ghost use Rattle.orc_wire.specs.EncodingKinds.{is_dictionary};

use crate::message::Message;

/// No field begins another, so bytes are those of one list of fields at most. Any bytes begin with
/// a field, or exactly one fault says why not.
pub fn field_laws()
    // If the same bytes begin with two fields, then the two fields are equal.
    ensures one_field { (place : ℕ) (a b : Item) (x y : List ℕ)
        → IsField place a → IsField place b → a.text ++ x ≡ b.text ++ y → a ≡ b }
    // If bytes are those of two lists of fields, then the two lists are equal.
    ensures one_list { (base : ℕ) (a b : List Item) (bytes : List ℕ)
        → IsFields base a bytes → IsFields base b bytes → a ≡ b }
    // If a fault says why bytes don't begin with a field, then they don't begin with one.
    ensures none { (place : ℕ) (item : Item) (rest : List ℕ) (fault : WireFault)
        → NoField place (item.text ++ rest) fault → IsField place item → ⊥ }
    // If two faults say why bytes don't begin with a field, then the two faults are equal.
    ensures one_fault { (place : ℕ) (bytes : List ℕ) (e f : WireFault)
        → NoField place bytes e → NoField place bytes f → e ≡ f }
    // If all numbers of a list are below 256, then it begins with a field, or a fault says why not.
    ensures cover { (place : ℕ) (bytes : List ℕ)
        → AllBytes bytes → HasField place bytes ⊎ ((fault : WireFault) × NoField place bytes fault) }
{}

/// What the fields of a message say of each kind of member: the last number or text with the
/// member's field number, the parts or texts of a list in order, the kept fields unchanged. If a
/// member has 32 bits, then each number with its field number must be below 2^32.
pub fn table_laws()
    // A number with a default is the last one with its field number, or the default if there is
    // none.
    ensures number_last { (n default : ℕ) (fields : List Item) (v : ℕ)
        → (last default (number_part n)).says fields v ↔ (v ≡ unwrap_or (newest (number_in n) fields) default) }
    // A number of 32 bits with a default is the last one with its field number, or the default if
    // there is none, and each number with that field number is below 2^32.
    ensures small_last { (n default : ℕ) (fields : List Item) (v : ℕ)
        → (last default (small n)).says fields v
        ↔ ((v ≡ unwrap_or (newest (number_in n) fields) default) × AreSmall n fields) }
    // A text with a default is the last one with its field number, or the default if there is none.
    ensures text_last { (n : ℕ) (default : List ℕ) (fields : List Item) (v : List ℕ)
        → (last default (bytes_part n)).says fields v ↔ (v ≡ unwrap_or (newest (bytes_of_field n) fields) default) }

    // A number of 32 bits that may be missing is the last one with its field number, and each
    // number with that field number is below 2^32.
    ensures small_known { (n : ℕ) (fields : List Item) (v : Option ℕ)
        → (known (small n)).says fields v ↔ ((v ≡ newest (number_in n) fields) × AreSmall n fields) }
    // A number that may be missing is the last one with its field number, and is missing if there
    // is none.
    ensures number_known { (n : ℕ) (fields : List Item) (v : Option ℕ)
        → (known (number_part n)).says fields v ↔ (v ≡ newest (number_in n) fields) }
    // A signed number is the one whose zigzag number is the last one with its field number, and is
    // missing if there is none.
    ensures signed_known { (n : ℕ) (fields : List Item) (v : Option ℤ)
        → (known (signed n)).says fields v ↔ (option_map zig v ≡ newest (number_in n) fields) }
    // A signed number of 32 bits is the one whose zigzag number is the last one with its field
    // number, and is missing if there is none; each number with that field number is below 2^32.
    ensures small_signed_known { (n : ℕ) (fields : List Item) (v : Option ℤ)
        → (known (small_signed n)).says fields v
        ↔ ((option_map zig v ≡ newest (number_in n) fields) × AreSmall n fields) }
    // A flag is true if the last number with its field number isn't 0, false if it is 0, and
    // missing if there is none.
    ensures flag_known { (n : ℕ) (fields : List Item) (v : Option Bool)
        → (known (flag n)).says fields v ↔ (v ≡ option_map (λ k. not (k == 0)) (newest (number_in n) fields)) }
    // A text that may be missing is the last one with its field number, and is missing if there is
    // none.
    ensures text_known { (n : ℕ) (fields : List Item) (v : Option (List ℕ))
        → (known (bytes_part n)).says fields v ↔ (v ≡ newest (bytes_of_field n) fields) }

    // A list of numbers has the numbers of each field with its field number, packed or plain, in
    // order.
    ensures packed_list { (limit n : ℕ) (fields : List Item) (v : List ℕ)
        → (every_value (packed limit n)).says fields v ↔ JoinsParts (packed limit n).gives fields v }
    // A list of texts has all texts with its field number, in order.
    ensures texts { (n : ℕ) (fields : List Item) (v : List (List ℕ))
        → (each (bytes_part n)).says fields v ↔ (v ≡ in_order (bytes_of_field n) fields) }
    // Kept bytes are those of all fields with numbers from a number on, in order.
    ensures kept { (n : ℕ) (fields : List Item) (v : List ℕ)
        → (every_value (kept_from n)).says fields v ↔ (v ≡ kept_texts n fields) }
{}

/// Any bytes spell exactly one message, or have exactly one fault. A list of messages in a message
/// has them in the order of their fields; a message that may occur once is in one field at most.
/// The numbers of a message that was read fit the bits of their fields. If its canonical text
/// contains all of it, then this text spells the message again.
pub fn message_laws<M: Message>()
    // If bytes spell two messages, then the two messages are equal.
    ensures one { (base : ℕ) (bytes : List ℕ) (a b : M)
        → Spells M.members M.REQUIRED base bytes a → Spells M.members M.REQUIRED base bytes b → a ≡ b }
    // If bytes have a fault, then they spell no message.
    ensures none { (base : ℕ) (bytes : List ℕ) (a : M) (fault : WireFault)
        → Faults M.members M.REQUIRED base bytes fault → Spells M.members M.REQUIRED base bytes a → ⊥ }
    // If bytes have two faults, then the two faults are equal.
    ensures one_fault { (base : ℕ) (bytes : List ℕ) (e f : WireFault)
        → Faults M.members M.REQUIRED base bytes e → Faults M.members M.REQUIRED base bytes f → e ≡ f }
    // If all numbers of a list are below 256, then it spells a message or has a fault.
    ensures cover { (base : ℕ) (bytes : List ℕ)
        → AllBytes bytes
        → ((a : M) × Spells M.members M.REQUIRED base bytes a)
        ⊎ ((fault : WireFault) × Faults M.members M.REQUIRED base bytes fault) }

    // A list of messages has the message of each field with its field number and wire type 2, in
    // order.
    ensures each { (n : ℕ) (fields : List Item) (v : List M)
        → (each (message M.members M.REQUIRED n)).says fields v
        ↔ JoinsSome (message M.members M.REQUIRED n).gives fields v }
    // A message that may occur once is that of the only field with its field number and wire type
    // 2, and is missing if there is no such field.
    ensures only { (n : ℕ) (fields : List Item) (v : Option M)
        → (only M.members M.REQUIRED n).says fields v ↔ OnlyMessage M.members M.REQUIRED n fields v }

    // If bytes spell a message, then its numbers fit the bits of their fields.
    ensures bounded { (base : ℕ) (bytes : List ℕ) (a : M)
        → Spells M.members M.REQUIRED base bytes a → M.canonical.bounded a }
    // If the canonical text of a message that was read contains all of it and has fewer than 2^64
    // bytes, then this text spells the message, at any place.
    ensures again { (base place : ℕ) (bytes : List ℕ) (a : M)
        → Spells M.members M.REQUIRED base bytes a
        → M.canonical.whole a
        → length (M.canonical.text a) < 2 ^ 64
        → Spells M.members M.REQUIRED place (M.canonical.text a) a }
{}

/// When the canonical text of a message contains all of it, so that it reads back: always, with
/// three exceptions. The dictionary size of an encoding is written for dictionary kinds only. Kept
/// bytes must be fields with kept numbers. A record of statistics is written only if one of its
/// parts is known. A message that was read keeps such fields, and it is decided whether they all
/// have numbers from a higher one on.
pub fn whole_laws()
    // The canonical text of a stream contains all of it.
    ensures stream { (m : StreamMsg) → stream_text.whole m }
    // If the kind of an encoding is a dictionary's or its dictionary size is 0, then its canonical
    // text contains all of it.
    ensures encoding { (m : Encoding) → (is_dictionary m.kind ≡ false → m.dictionary_size ≡ 0) → encoding_text.whole m }
    // If the canonical text of each encoding of a stripe footer contains all of the encoding, then
    // that of the stripe footer contains all of the stripe footer.
    ensures directory { (m : StripeFooter) → AllByRecursion encoding_text.whole m.columns → stripe_footer_text.whole m }
    // The canonical text of a postscript contains all of it.
    ensures postscript { (m : PostScript) → post_script_text.whole m }
    // If the bytes that a type keeps are fields with numbers above 3, then its canonical text
    // contains all of it.
    ensures type_of_kept { (m : TypeMsg) → AreKept 4 m.kept → type_text.whole m }
    // If bytes spell a type, then the bytes that it keeps are fields with numbers above 3.
    ensures type_read { (base : ℕ) (bytes : List ℕ) (m : TypeMsg) → Spells type_msg 1 base bytes m → AreKept 4 m.kept }

    // The canonical text of a stripe's information, and that of an item of user metadata, contains
    // all of it.
    ensures stripe { (m : StripeInfo) → stripe_info_text.whole m }
    ensures pair { (m : UserMetadataItem) → user_metadata_text.whole m }
    // If the canonical texts of the statistics of a footer contain all of them, its types keep only
    // fields with numbers above 3, and the footer keeps only fields with numbers above 9, then the
    // footer's canonical text contains all of it.
    ensures footer_of_kept { (m : Footer)
        → AllByRecursion (λ t. AreKept 4 t.kept) m.types
        → AllByRecursion column_stats_text.whole m.statistics
        → AreKept 10 m.kept
        → footer_text.whole m }
    // If bytes spell a footer, then it keeps only fields with numbers above 9, and its types keep
    // only fields with numbers above 3.
    ensures footer_read { (base : ℕ) (bytes : List ℕ) (m : Footer)
        → Spells footer 0 base bytes m → AreKept 10 m.kept × AllByRecursion (λ t. AreKept 4 t.kept) m.types }
    // If bytes are fields with numbers from one number on, then it is decided whether they all have
    // numbers from another number on.
    ensures kept_or_not { (m n : ℕ) (bytes : List ℕ) → AreKept m bytes → AreKept n bytes ⊎ (AreKept n bytes → ⊥) }

    // The canonical text of a record of statistics, of each of the six kinds, contains all of it.
    ensures integers { (m : IntegerStatistics) → integer_stats_text.whole m }
    ensures strings { (m : StringStatistics) → string_stats_text.whole m }
    ensures buckets { (m : BucketStatistics) → bucket_stats_text.whole m }
    ensures dates { (m : DateStatistics) → date_stats_text.whole m }
    ensures binaries { (m : BinaryStatistics) → binary_stats_text.whole m }
    ensures collections { (m : CollectionStatistics) → collection_stats_text.whole m }
    // If no record of a column's statistics has an empty canonical text, then the canonical text of
    // the column's statistics contains all of them.
    ensures column { (m : ColumnStats)
        → IfSome m.int_statistics (λ s. integer_stats_text.text s ≡ [] → ⊥)
        → IfSome m.string_statistics (λ s. string_stats_text.text s ≡ [] → ⊥)
        → IfSome m.bucket_statistics (λ s. bucket_stats_text.text s ≡ [] → ⊥)
        → IfSome m.date_statistics (λ s. date_stats_text.text s ≡ [] → ⊥)
        → IfSome m.binary_statistics (λ s. binary_stats_text.text s ≡ [] → ⊥)
        → IfSome m.collection_statistics (λ s. collection_stats_text.text s ≡ [] → ⊥)
        → column_stats_text.whole m }
    // If the minimum, the maximum or the sum of a record of integers is known, then its canonical
    // text is not empty.
    ensures integer_shown { (m : IntegerStatistics)
        → IsSome m.minimum ⊎ (IsSome m.maximum ⊎ IsSome m.sum) → integer_stats_text.text m ≡ [] → ⊥ }
    // If the minimum, the maximum or the sum of a record of strings is known, then its canonical
    // text is not empty.
    ensures string_shown { (m : StringStatistics)
        → IsSome m.minimum ⊎ (IsSome m.maximum ⊎ IsSome m.sum) → string_stats_text.text m ≡ [] → ⊥ }
    // If a record of buckets has a count, and all its counts are below 2^64, then its canonical
    // text is not empty.
    ensures bucket_shown { (m : BucketStatistics)
        → AreBelow (2 ^ 64) m.count → (m.count ≡ [] → ⊥) → bucket_stats_text.text m ≡ [] → ⊥ }
    // If the minimum or the maximum of a record of dates is known, then its canonical text is not
    // empty.
    ensures date_shown { (m : DateStatistics) → IsSome m.minimum ⊎ IsSome m.maximum → date_stats_text.text m ≡ [] → ⊥ }
    // If the sum of a record of byte strings is known, then its canonical text is not empty.
    ensures binary_shown { (m : BinaryStatistics) → IsSome m.sum → binary_stats_text.text m ≡ [] → ⊥ }
    // If the least, the greatest or the total number of children of a record of collections is
    // known, then its canonical text is not empty.
    ensures collection_shown { (m : CollectionStatistics)
        → IsSome m.min_children ⊎ (IsSome m.max_children ⊎ IsSome m.total_children)
        → collection_stats_text.text m ≡ [] → ⊥ }
    // If the canonical text of each column's statistics contains all of them, then that of the
    // stripe's statistics contains all of these.
    ensures stripes { (m : StripeStatistics)
        → AllByRecursion column_stats_text.whole m.col_stats → stripe_stats_text.whole m }
    // If the canonical text of each stripe's statistics contains all of them, then that of the
    // file's metadata contains all of the metadata.
    ensures metadata { (m : Metadata) → AllByRecursion stripe_stats_text.whole m.stripe_stats → metadata_text.whole m }
    // If an entry has no statistics, or their canonical text contains all of them, then the entry's
    // canonical text contains all of the entry.
    ensures entry { (m : RowIndexEntry) → IfSome m.statistics column_stats_text.whole → row_index_entry_text.whole m }
    // If the canonical text of each entry of a row index contains all of the entry, then that of
    // the row index contains all of the row index.
    ensures index { (m : RowIndexMsg) → AllByRecursion row_index_entry_text.whole m.entries → row_index_text.whole m }
    // The canonical text of a column's statistics is never empty.
    ensures column_shown { (m : ColumnStats) → column_stats_text.text m ≡ [] → ⊥ }
{}

/// The canonical texts, written out.
pub fn canonical_laws()
    // A stream's text is its kind, its column and its length, in fields 1 to 3.
    ensures stream { (m : StreamMsg)
        → stream_text.text m ≡ number_text 1 m.kind ++ (number_text 2 m.column ++ number_text 3 m.length) }
    // An encoding's text is its kind in field 1, and for dictionary kinds alone the dictionary's
    // size in field 2.
    ensures dictionary { (m : Encoding)
        → is_dictionary m.kind ≡ true → encoding_text.text m ≡ number_text 1 m.kind ++ number_text 2 m.dictionary_size }
    ensures direct { (m : Encoding) → is_dictionary m.kind ≡ false → encoding_text.text m ≡ number_text 1 m.kind }
    // A stripe footer's text is its streams, a field 1 each, and then its columns' encodings, a
    // field 2 each.
    ensures footer { (m : StripeFooter)
        → stripe_footer_text.text m ≡ list_text (λ s. sized (stream_text.text s)) 1 m.streams
        ++ list_text (λ e. sized (encoding_text.text e)) 2 m.columns }
    // A postscript's text is footer length, compression, version packed, metadata length, writer
    // version if it is known, and magic, in fields 1, 2, 4, 5, 6 and 8000.
    ensures postscript { (m : PostScript)
        → post_script_text.text m ≡ number_text 1 m.footer_length
        ++ (number_text 2 m.compression
        ++ (packed_text 4 m.version
        ++ (number_text 5 m.metadata_length
        ++ (known_text (λ v. varint v) 6 m.writer_version ++ sized_text 8000 m.magic)))) }
    // The text of a stripe's information is its offset, the lengths of its index, data and footer,
    // and its number of rows, in fields 1 to 5.
    ensures stripe { (m : StripeInfo)
        → stripe_info_text.text m ≡ number_text 1 m.offset
        ++ (number_text 2 m.index_length
        ++ (number_text 3 m.data_length ++ (number_text 4 m.footer_length ++ number_text 5 m.number_of_rows))) }
    // The text of an item of user metadata is its name and its value, in fields 1 and 2.
    ensures pair { (m : UserMetadataItem) → user_metadata_text.text m ≡ sized_text 1 m.name ++ sized_text 2 m.value }
    // The text of a record of integers is the minimum, the maximum and the sum, each if it is
    // known, in fields 1 to 3.
    ensures integers { (m : IntegerStatistics)
        → integer_stats_text.text m ≡ known_text (λ v. varint (zig v)) 1 m.minimum
        ++ (known_text (λ v. varint (zig v)) 2 m.maximum ++ known_text (λ v. varint (zig v)) 3 m.sum) }
    // The text of a record of strings is the minimum and the maximum as texts and the sum, each if
    // it is known, in fields 1 to 3.
    ensures strings { (m : StringStatistics)
        → string_stats_text.text m ≡ known_text (λ v. sized v) 1 m.minimum
        ++ (known_text (λ v. sized v) 2 m.maximum ++ known_text (λ v. varint (zig v)) 3 m.sum) }
    // The text of a record of buckets is its counts, packed in field 1.
    ensures buckets { (m : BucketStatistics) → bucket_stats_text.text m ≡ packed_text 1 m.count }
    // The text of a record of dates is the minimum and the maximum, each if it is known, in fields
    // 1 and 2.
    ensures dates { (m : DateStatistics)
        → date_stats_text.text m ≡ known_text (λ v. varint (zig v)) 1 m.minimum
        ++ known_text (λ v. varint (zig v)) 2 m.maximum }
    // The text of a record of byte strings is the sum in field 1, if it is known.
    ensures binaries { (m : BinaryStatistics) → binary_stats_text.text m ≡ known_text (λ v. varint (zig v)) 1 m.sum }
    // The text of a record of collections is the least, the greatest and the total number of
    // children, each if it is known, in fields 1 to 3.
    ensures collections { (m : CollectionStatistics)
        → collection_stats_text.text m ≡ known_text (λ v. varint v) 1 m.min_children
        ++ (known_text (λ v. varint v) 2 m.max_children ++ known_text (λ v. varint v) 3 m.total_children) }
    // The text of a column's statistics is the number of values in field 1, the records whose text
    // is not empty in fields 2, 4, 5, 7, 8 and 12, and in field 10, if it is known, whether there
    // is a null.
    ensures column { (m : ColumnStats)
        → column_stats_text.text m ≡ number_text 1 m.number_of_values
        ++ (shown_text integer_stats_text.text 2 m.int_statistics
        ++ (shown_text string_stats_text.text 4 m.string_statistics
        ++ (shown_text bucket_stats_text.text 5 m.bucket_statistics
        ++ (shown_text date_stats_text.text 7 m.date_statistics
        ++ (shown_text binary_stats_text.text 8 m.binary_statistics
        ++ (known_text (λ v. varint (flag_number v)) 10 m.has_null
        ++ shown_text collection_stats_text.text 12 m.collection_statistics)))))) }
    // The text of a stripe's statistics is those of its columns, a field 1 each.
    ensures stripes { (m : StripeStatistics)
        → stripe_stats_text.text m ≡ list_text (λ c. sized (column_stats_text.text c)) 1 m.col_stats }
    // The text of a file's metadata is the statistics of its stripes, a field 1 each.
    ensures metadata { (m : Metadata)
        → metadata_text.text m ≡ list_text (λ s. sized (stripe_stats_text.text s)) 1 m.stripe_stats }
    // The text of an entry is its positions, packed in field 1, and its statistics in field 2, if
    // their text is not empty.
    ensures entry { (m : RowIndexEntry)
        → row_index_entry_text.text m ≡ packed_text 1 m.positions ++ shown_text column_stats_text.text 2 m.statistics }
    // The text of a row index is its entries, a field 1 each.
    ensures index { (m : RowIndexMsg)
        → row_index_text.text m ≡ list_text (λ e. sized (row_index_entry_text.text e)) 1 m.entries }
    // A footer's text is header and content length, stripes, types, user metadata, number of rows,
    // statistics, stride and, if known, writer, in fields 1 to 9, and then the bytes that it keeps.
    ensures file { (m : Footer)
        → footer_text.text m ≡ number_text 1 m.header_length
        ++ (number_text 2 m.content_length
        ++ (list_text (λ s. sized (stripe_info_text.text s)) 3 m.stripes
        ++ (list_text (λ t. sized (type_text.text t)) 4 m.types
        ++ (list_text (λ p. sized (user_metadata_text.text p)) 5 m.metadata
        ++ (number_text 6 m.number_of_rows
        ++ (list_text (λ c. sized (column_stats_text.text c)) 7 m.statistics
        ++ (number_text 8 m.row_index_stride ++ (known_text (λ v. varint v) 9 m.writer ++ m.kept)))))))) }
    // A type's text is its kind, its subtypes packed and its field names, in fields 1 to 3, and
    // then the bytes that it keeps.
    ensures type_of { (m : TypeMsg)
        → type_text.text m ≡ number_text 1 m.kind
        ++ (packed_text 2 m.subtypes ++ (list_text (λ t. sized t) 3 m.field_names ++ m.kept)) }
{}
