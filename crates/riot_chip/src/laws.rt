//! Laws about the definitions.
ghost use Rattle.std.specs.Prelude.{◌≡◌, [], ◌∷◌, IsTrue};
ghost use Rattle.record_table.specs.Numbers.{bytes_of, table_length};
ghost use Rattle.riot_chip.specs.Riot.{fields_of, is_riot, riot_at_power_on, riot_numbers};

/// In a record of a RIOT 9 bytes follow the memory. At power-on they say a timer with one cycle
/// left of its longest interval, and the numbers are lawful.
pub const fn law_of_records()
    ensures length { table_length riot_numbers ≡ 9 }
    ensures power_on { bytes_of riot_numbers (fields_of riot_at_power_on) ≡ 0 ∷ 0 ∷ 0 ∷ 0 ∷ 0 ∷ 0 ∷ 1 ∷ 3 ∷ 0 ∷ [] }
    ensures lawful { IsTrue (is_riot (fields_of riot_at_power_on)) }
{}
