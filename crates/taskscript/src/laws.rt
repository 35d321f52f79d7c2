//! Laws of lines: what a line says is one thing, by the relation `Says`, and the machine of a file is made of exactly
//! that. The functions do nothing; their contracts are the laws.
ghost use Rattle.std.specs.Prelude.{◌≡◌, ℕ, List, Some, None};
ghost use Rattle.taskscript.specs.{Lines.LineData, Lines.NamedCommandData, Lines.fields, Meaning.line_meaning, Says.IsLine, Says.Says, Says.Meaning};

/// A line has at most one command.
pub fn one_command()
    ensures { (fields : List (List ℕ)) (c d : NamedCommandData) → IsLine fields c → IsLine fields d → c ≡ d }
{}

/// A line is one label or one command, and not both.
pub fn one_meaning()
    ensures { (fields : List (List ℕ)) (x y : LineData) → Says fields x → Says fields y → x ≡ y }
{}

/// Any two functions that the relation determines answer the same of all fields.
pub fn one_reading()
    ensures { (m n : Meaning) (fields : List (List ℕ)) → m.answer fields ≡ n.answer fields }
{}

/// What a line says is read from it.
pub fn said_line_is_read()
    ensures { (line : List ℕ) (x : LineData) → Says (fields line) x → line_meaning line ≡ Some x }
{}

/// What is read from a line is what it says.
pub fn read_line_is_said()
    ensures { (line : List ℕ) (x : LineData) → line_meaning line ≡ Some x → Says (fields line) x }
{}

/// A line that is refused says nothing.
pub fn refused_line_says_nothing()
    ensures { (line : List ℕ) (x : LineData) → line_meaning line ≡ None → ¬ Says (fields line) x }
{}
