//! The first two users of each item.
ghost use Rattle.std.specs.Prelude.{
  ◌≡◌,
  ◌<◌,
  ℕ,
  List,
  [],
  ◌∷◌,
  ◌++◌,
  IfOk,
  length,
  take,
  map,
  replicate,
  slice_get,
  slice_set,
};
ghost use Rattle.ds_image_tables.specs.Users.{users, users_in, KnowsUsers};

use ds_base::NoMemory;
use std::alloc::Global;
use std::marker::Model;

/// The first two users of an item, as far as it has any.
#[derive(Clone, Copy)]
enum FirstUsers {
    Unused,
    Once(u32),
    Twice(u32, u32),
}

impl FirstUsers {
    ghost use Rattle.ds_image_tables.specs.KnownUsers.{known_users};

    fn with(self, object: u32) -> FirstUsers
        ensures { known_users result ≡ take 2 (known_users self ++ object ∷ []) }
    {
        match self {
            FirstUsers::Unused => FirstUsers::Once(object),
            FirstUsers::Once(first) => FirstUsers::Twice(first, object),
            FirstUsers::Twice(first, second) => FirstUsers::Twice(first, second),
        }
    }

    fn first(self) -> Option<u32>
        ensures { result ≡ slice_get (known_users self) 0 }
    {
        match self {
            FirstUsers::Unused => None,
            FirstUsers::Once(first) | FirstUsers::Twice(first, _) => Some(first),
        }
    }

    fn second(self) -> Option<u32>
        ensures { result ≡ slice_get (known_users self) 1 }
    {
        match self {
            FirstUsers::Unused | FirstUsers::Once(_) => None,
            FirstUsers::Twice(_, second) => Some(second),
        }
    }
}

/// Which objects use each item, which contracts see as the list of the first two users of each.
#[derive(Drop)]
pub struct Users {
    rows: Vec<FirstUsers>,
}

impl Model for Users {
    ghost use Rattle.std.specs.Prelude.{ℕ, List, map};

    ghost Value = { List (List ℕ) };

    ghost use Rattle.ds_image_tables.specs.KnownUsers.{known_users};

    ghost view = { λ u. map known_users u.rows.items };
}

impl Users {
    /// So many items, none of which has a user.
    pub fn new(alloc: Global, count: u32) -> Result<Users, NoMemory>
        ensures unused { IfOk result (λ table. table ≡ replicate count []) }
        ensures knows { IfOk result (λ table. KnowsUsers table []) }
    {
        let Ok(rows) = vec![in alloc; FirstUsers::Unused; count as usize] else {
            return Err(NoMemory);
        };
        Ok(Users { rows })
    }

    /// Notes that an object uses an item.
    pub fn note(&mut self, item: u32, object: u32)
        requires { item < length self.old }
        ensures noted { self.new ≡ slice_set self.old item (take 2 (users_in self.old item ++ object ∷ [])) }
        ensures count { length self.new ≡ length self.old }
        ensures knows { (uses : List (ℕ × ℕ)) → KnowsUsers self.old uses → KnowsUsers self.new (uses ++ (item, object) ∷ []) }
    {
        let row = self.rows[item as usize];
        self.rows[item as usize] = row.with(object);
    }

    /// The first user of an item; none of an item past the last.
    pub fn first(&self, item: u32) -> Option<u32>
        ensures exact { result ≡ slice_get (users_in self.now item) 0 }
        ensures of_uses { (uses : List (ℕ × ℕ)) → KnowsUsers self.now uses → item < length self.now
            → result ≡ slice_get (users uses item) 0 }
    {
        self.row(item).first()
    }

    /// The second user of an item; none of an item past the last.
    pub fn second(&self, item: u32) -> Option<u32>
        ensures exact { result ≡ slice_get (users_in self.now item) 1 }
        ensures of_uses { (uses : List (ℕ × ℕ)) → KnowsUsers self.now uses → item < length self.now
            → result ≡ slice_get (users uses item) 1 }
    {
        self.row(item).second()
    }

    /// The first users of all items, in order.
    pub fn firsts(&self, alloc: Global) -> Result<Vec<Option<u32>>, NoMemory>
        ensures { IfOk result (λ firsts. firsts.items ≡ map (λ row. slice_get row 0) self.now) }
    {
        let mut firsts = Vec::new(alloc);
        for row in &self.rows {
            firsts.push(row.first())?;
        }
        Ok(firsts)
    }
}

impl Users {
    ghost use Rattle.std.specs.Prelude.{◌≡◌};
    ghost use Rattle.ds_image_tables.specs.Users.{users_in};
    ghost use Rattle.ds_image_tables.specs.KnownUsers.{known_users};

    fn row(&self, item: u32) -> FirstUsers
        ensures { known_users result ≡ users_in self.now item }
    {
        match self.rows.get(item as usize) {
            None => FirstUsers::Unused,
            Some(row) => *row,
        }
    }
}
