// Whether two names are the same: as long, and byte by byte.
ghost use Rattle.std.specs.Prelude.{◌≡◌};
ghost use Rattle.machine.specs.Written.{TableName};
ghost use Rattle.machine.specs.Names.{same_name};
ghost use Rattle.names.specs.Table.{NameStands};

// Of the names whose lengths stand at two places.
#[tactic(auto, using(crate::specs::TableLaws::same_by_bytes))]
pub fn same_name(s: &[u8], a: usize, b: usize) -> bool
    requires { ((m : TableName) × NameStands s.now a m) × ((n : TableName) × NameStands s.now b n) }
    ensures { (m n : TableName) → NameStands s.now a m → NameStands s.now b n → result ≡ same_name m n }
{
    name_at(s, a) == name_at(s, b)
}

// The bytes of the name whose length stands at a place.
#[tactic(auto, using(crate::specs::TableLaws::name_length, crate::specs::TableLaws::name_inside, crate::specs::TableLaws::name_bytes))]
fn name_at(s: &[u8], at: usize) -> &[u8]
    requires { (n : TableName) × NameStands s.now at n }
    ensures { (n : TableName) → NameStands s.now at n → result.now ≡ n }
{
    let start = at + 1;
    &s[start..start + s[at] as usize]
}
