//! A line is read as it was written: each contract is a law.

ghost use Rattle.std.specs.Prelude.{◌≡◌, ◌++◌, ℕ, List, Some, codes};
ghost use Rattle.serde_json.specs.Data.{Data};
ghost use Rattle.serde_json.specs.Read.{read};
ghost use Rattle.part_lines.specs.Agreed.{Agree};
ghost use Rattle.part_lines.specs.LineObject.{IsLineIn};
ghost use Rattle.part_lines.specs.LineText.{line_text};
ghost use Rattle.part_lines.specs.Sealed.{body_in, object_in, sealed};
ghost use Rattle.part_lines.specs.Writable.{IsWritable};
ghost use Rattle.part_lines.specs.declared.line.PartLine.{PartLine};

/// The text of a line, without its LF, has the checksum of its bytes, and its object has members that say this line.
pub fn written_lines_are_read()
    ensures { (line : PartLine) → IsWritable line → (text : List ℕ) × (it : Data) × (line_text line ≡ text ++ codes "\n")
        × (text ≡ sealed (body_in text)) × (read (object_in text) ≡ Some it) × IsLineIn it line }
{}

/// The members of an object say one line: two that they say agree in all but the kinds that are allowed and the count of each code.
pub fn members_say_one_line()
    ensures { (it : Data) (one other : PartLine) → IsLineIn it one → IsLineIn it other → Agree one other }
{}
