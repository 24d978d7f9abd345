ghost use Rattle.std.specs.Prelude.{◌≡◌, ◌<◌, ◌≤◌, Some, length, option_map, slice_get};
ghost use Rattle.dxc_model.specs.Equipment.{IsEquipment};
ghost use Rattle.shelf_file.specs.Shelves.{AreDescribed};
ghost use Rattle.shelf_file.specs.Users.{logged_in as as_logged_in};

use crate::idle::IdleLimits;
use crate::user::User;
use dxc_model::{Class, SessionUser, Uid};
use dxc_num::Shape;
use std::marker::Model;
use tl1_text::Sid;

/// What a shelf file describes: the element's identifier, its shape, the modules that are equipped at first, how long each class may be idle, and
/// its users. Of a PID only the digest is kept, which is SHA-256 (FIPS 180-4) of the user's salt followed by the PID.
#[derive(Drop)]
pub struct Shelf {
    pub(crate) sid: Sid,
    pub(crate) shape: Shape,
    pub(crate) equipped: u64,
    pub(crate) idle: IdleLimits,
    pub(crate) users: Vec<User>,
}

impl Model for Shelf {
    ghost use Rattle.shelf_file.specs.Contents.{Contents};
    ghost use Rattle.shelf_file.specs.Users.{entries_of};
    ghost use Rattle.shelf_file.specs.Shelves.{IsKept};

    ghost Value = { Contents };

    ghost view = { λ s. record {
      sid = s.sid;
      shape = s.shape;
      equipped = s.equipped;
      idle = s.idle;
      users = entries_of s.users.items;
    } };

    ghost invariant = { λ s. IsKept (record {
      sid = s.sid;
      shape = s.shape;
      equipped = s.equipped;
      idle = s.idle;
      users = entries_of s.users.items;
    }) };
}

impl Shelf {
    /// The most bytes of a shelf file.
    pub const MOST_BYTES: usize = 65_536;

    pub fn sid(&self) -> &Sid
        ensures { result.now ≡ self.now.sid }
    {
        &self.sid
    }

    pub fn shape(&self) -> Shape
        ensures { result ≡ self.now.shape }
    {
        self.shape
    }

    /// The modules that are equipped at first, bit m for module m from 0.
    pub fn equipped(&self) -> u64
        ensures value { result ≡ self.now.equipped }
        ensures equipment { IsEquipment self.now.shape result }
    {
        self.equipped
    }

    /// How long each class may be idle.
    pub fn idle(&self) -> IdleLimits
        ensures { result ≡ self.now.idle }
    {
        self.idle
    }

    /// How many users there are: 1 to 64. Each has a name in upper case, and a digest of 32 bytes.
    pub fn users(&self) -> u16
        ensures count { result ≡ length self.now.users }
        ensures some { 1 ≤ result }
        ensures few { result ≤ 64 }
        ensures described { AreDescribed self.now.users }
    {
        self.users.len() as u16
    }

    fn user(&self, user: u16) -> &User
        requires { user < length self.now.users }
        ensures name { option_map (λ e. e.name) (slice_get self.now.users user) ≡ Some
            result.now.uid.items }
        ensures class { option_map (λ e. e.class) (slice_get self.now.users user) ≡ Some
            result.now.class }
        ensures salt { option_map (λ e. e.salt) (slice_get self.now.users user) ≡ Some
            result.now.salt.items }
        ensures digest { option_map (λ e. e.digest) (slice_get self.now.users user) ≡ Some
            result.now.digest }
    {
        match self.users.get(user as usize) {
            Some(kept) => kept,
            None => unreachable!(),
        }
    }

    /// A user's class. The user is below `users()`, here and in the calls below.
    pub fn class(&self, user: u16) -> Class
        requires { user < length self.now.users }
        ensures { option_map (λ e. e.class) (slice_get self.now.users user) ≡ Some result }
    {
        self.user(user).class
    }

    /// A user's salt, at most 32 bytes.
    pub fn salt(&self, user: u16) -> &[u8]
        requires { user < length self.now.users }
        ensures salt { option_map (λ e. e.salt) (slice_get self.now.users user) ≡ Some result.now }
        ensures short { length result.now ≤ 32 }
    {
        self.user(user).salt.as_slice()
    }

    /// The digest that is kept of a user's salt and PID.
    pub fn digest(&self, user: u16) -> &[u8; 32]
        requires { user < length self.now.users }
        ensures { option_map (λ e. e.digest) (slice_get self.now.users user) ≡ Some result.now }
    {
        &self.user(user).digest
    }

    /// A user's name in upper case. No two users have one name.
    pub fn name(&self, user: u16) -> &[u8]
        requires { user < length self.now.users }
        ensures name { option_map (λ e. e.name) (slice_get self.now.users user) ≡ Some result.now }
        ensures short { length result.now ≤ 10 }
    {
        self.user(user).uid.as_slice()
    }

    /// A user as one who is logged in.
    pub fn logged_in(&self, user: u16) -> SessionUser
        requires { user < length self.now.users }
        ensures { option_map as_logged_in (slice_get self.now.users user) ≡ Some result }
    {
        let Some(uid) = Uid::of(self.name(user)) else {
            unreachable!()
        };
        let class = self.class(user);
        SessionUser::User { uid, class }
    }
}
