//! Laws about the definitions.
ghost use Rattle.std.specs.Prelude.{◌≡◌, ◌<◌, ℕ, List, Option, IsTrue, length};
ghost use Rattle.cart_board.specs.Access.{banks_selected, banks_of_byte, target_of, size_of};
ghost use Rattle.cart_board.specs.Board.{Row, has_length};
ghost use Rattle.cart_board.specs.Boards.{IsBoard};
ghost use Rattle.cart_board.specs.CartState.{CartState, are_banks, fits, banks_at_power_on};
ghost use Rattle.cart_board.specs.Record.{IsSpelled};

/// On each board an access selects banks that there are and leads to a byte that there is.
pub fn law_of_boards()
    ensures power_on { (row : Row) (bytes : ℕ) → IsBoard row → IsTrue (has_length row bytes)
        → IsTrue (are_banks row bytes (banks_at_power_on row)) }
    ensures select { (row : Row) (bytes : ℕ) (banks : List ℕ) (address : ℕ) (written : Option ℕ) → IsBoard row → IsTrue (has_length row bytes)
        → length banks ≡ 3 → IsTrue (are_banks row bytes banks) → IsTrue (are_banks row bytes (banks_selected row bytes banks address written)) }
    ensures byte { (row : Row) (bytes : ℕ) (banks : List ℕ) (address byte : ℕ) → IsBoard row → IsTrue (has_length row bytes)
        → length banks ≡ 3 → IsTrue (are_banks row bytes banks) → IsTrue (are_banks row bytes (banks_of_byte row.trigger banks address byte)) }
    ensures within { (row : Row) (bytes : ℕ) (banks : List ℕ) (address : ℕ) → IsBoard row → IsTrue (has_length row bytes)
        → IsTrue (are_banks row bytes banks)
        → let target = target_of row bytes banks address in target.offset < size_of row bytes target.kind }
{}

/// The bytes of each state of a cartridge spell it.
pub fn law_of_records()
    ensures { (c : CartState) → IsBoard c.cartridge.row → IsTrue (has_length c.cartridge.row (length c.cartridge.bytes))
        → length c.banks ≡ 3 → IsTrue (fits c.cartridge c.banks c.ram) → IsSpelled c }
{}
