ghost use Rattle.std.specs.Prelude.{◌≡◌, IfOk};

use key_table::{Copied, NoMemory, Seq, Text};

/// A connector, and one of the merchant's accounts at it where an id is given.
#[derive(Debug, PartialEq, Eq, Drop)]
pub struct Account {
    pub connector: Text,
    pub id: Option<Text>,
}

/// An account's part of the volume, in percent.
#[derive(Debug, PartialEq, Eq, Drop)]
pub struct Share {
    pub account: Account,
    pub split: u8,
}

/// Whether a payer is authenticated by 3-D Secure.
#[derive(Clone, Copy, Debug, PartialEq, Eq)]
pub enum ThreeDs {
    ThreeDs,
    NoThreeDs,
}

/// What a rule or the default gives: accounts in the order in which they are tried, accounts by volume, a surcharge in
/// minor units or in basis points, an authentication, or nothing.
#[derive(Debug, PartialEq, Eq, Drop)]
pub enum Selection {
    Priority(Seq<Account>),
    Volume(Seq<Share>),
    SurchargeFixed(i64),
    SurchargeRate(u16),
    Auth(ThreeDs),
    Nothing,
}

impl Account {
    /// An equal account.
    pub fn copy(&self) -> Result<Account, NoMemory>
        ensures { IfOk result (λ a. a ≡ self.now) }
    {
        let connector = self.connector.copy()?;
        let id = match &self.id {
            Some(id) => Some(id.copy()?),
            None => None,
        };
        Ok(Account { connector, id })
    }
}

impl Copied for Account {
    fn copied(&self) -> Result<Account, NoMemory> {
        self.copy()
    }
}

impl Share {
    /// An equal part.
    pub fn copy(&self) -> Result<Share, NoMemory>
        ensures { IfOk result (λ s. s ≡ self.now) }
    {
        Ok(Share {
            account: self.account.copy()?,
            split: self.split,
        })
    }
}

impl Copied for Share {
    fn copied(&self) -> Result<Share, NoMemory> {
        self.copy()
    }
}

impl Selection {
    /// An equal selection.
    pub fn copy(&self) -> Result<Selection, NoMemory>
        ensures { IfOk result (λ s. s ≡ self.now) }
    {
        Ok(match self {
            Selection::Priority(accounts) => Selection::Priority(accounts.copy()?),
            Selection::Volume(shares) => Selection::Volume(shares.copy()?),
            Selection::SurchargeFixed(amount) => Selection::SurchargeFixed(*amount),
            Selection::SurchargeRate(points) => Selection::SurchargeRate(*points),
            Selection::Auth(decision) => Selection::Auth(*decision),
            Selection::Nothing => Selection::Nothing,
        })
    }
}
