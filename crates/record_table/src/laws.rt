//! Laws about the definitions.
ghost use Rattle.std.specs.Prelude.{◌≡◌, ◌++◌, ◌&&◌, List, length};
ghost use Rattle.record_table.specs.Numbers.{Number, are_lawful, bytes_of, table_length};

/// A law: the bytes that spell the numbers of a table are as many as the table says.
pub const fn law_of_lengths<F>()
    ensures { (numbers : List (Number F)) (f : F)
        → length (bytes_of numbers f) ≡ table_length numbers }
{}

/// A law: a table in two parts is spelled part after part, and lawful if both parts are.
pub const fn law_of_parts<F>()
    ensures bytes { (first second : List (Number F)) (f : F)
        → bytes_of (first ++ second) f ≡ bytes_of first f ++ bytes_of second f }
    ensures lawful { (first second : List (Number F)) (f : F)
        → are_lawful (first ++ second) f ≡ (are_lawful first f && are_lawful second f) }
{}
