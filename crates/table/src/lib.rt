// Tables of test cases, as the programs that run them read them.
#![tactic(auto)]

ghost use Rattle.std.specs.Prelude.{◌≡◌, true, false, MatchOption};
ghost use Rattle.table.specs.Items.{no_item, item_bytes, after_item};

// An item of a table, and the table after it.
#[derive(Clone, Copy)]
pub struct Item<'a> {
    pub bytes: &'a [u8],
    pub rest: &'a [u8],
}

// The first item of a table; none where no whole one is left.
pub fn first_item<'a>(table: &'a [u8]) -> Option<Item<'a>>
    ensures { MatchOption result (no_item table.now ≡ true)
        (λ i. (no_item table.now ≡ false) × (i.bytes.now ≡ item_bytes table.now) × (i.rest.now ≡ after_item table.now)) }
{
    let (len, rest) = table.split_first_chunk::<4>()?;
    let (bytes, rest) = rest.split_at_checked(u32::from_le_bytes(*len) as usize)?;
    Some(Item { bytes, rest })
}
