// The header record (`DEXHeader` of tinydex.rs), by value. It is taken as given: nothing here reads it out of a file.
#![tactic(auto)]

ghost use Rattle.std.specs.Prelude.{◌≡◌};
ghost use Rattle.dalvik.specs.Ids.{item as item_at};

// Where a table of items begins, and how many items it has.
#[derive(Clone, Copy)]
pub struct Table {
    pub off: u32,
    pub size: u32,
}

#[derive(Clone, Copy)]
pub struct DexHeader {
    pub strings: Table,
    pub types: Table,
    pub prototypes: Table,
    pub fields: Table,
    pub methods: Table,
    pub classes: Table,
    pub mapoff: u32,
}

impl Table {
    // The offset after the table's last item, where an item has `item` bytes. No table is too large for it.
    pub fn end(self, item: u8) -> u64
        ensures { result ≡ item_at self.off item self.size }
    {
        (self.off as u64) + (item as u64) * (self.size as u64)
    }
}
