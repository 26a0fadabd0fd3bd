//! Fields of files: what it means that reading and spelling agree, and how fields make up larger ones.
//!
//! A field has a reader, a spelling and the values that it allows. What is read is allowed and stands there as its
//! spelling, behind which the next field begins; what is allowed and spelled there is read; and a refusal lies within the
//! bytes from the field's first one on. The calls do nothing: each carries a law.
#![tactic(auto)]

ghost use Rattle.std.specs.Prelude.{◌^◌};
ghost use Rattle.std.specs.Int.{w8, w16, w32};
ghost use Rattle.file_fields.specs.Laws.{AreFields, FieldsFollow, FieldsRepeat};

/// Numbers of one, two and four bytes are fields, alone or so many of them, and within bounds.
pub fn numbers_are_fields()
    ensures one { AreFields w8 256 }
    ensures two { AreFields w16 65536 }
    ensures four { AreFields w32 (2 ^ 32) }
{}

/// A field and one behind it are a field, also where the form of the second depends on the value of the first.
pub fn fields_follow<A, B>()
    ensures { FieldsFollow A B }
{}

/// So many fields of one kind are a field.
pub fn fields_repeat<A>()
    ensures { FieldsRepeat A }
{}
