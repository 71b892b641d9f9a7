// The object table in its image.
ghost use Rattle.std.specs.Prelude.{[]};
ghost use Rattle.layout.specs.Sizes.{estate_size, object_size, password_size, registration_size, table_size};
ghost use Rattle.layout.specs.Layout.{password, registration, object, estate, table};
ghost use Rattle.state.specs.Places.{no_password, no_registration, no_object, no_estate};

use crate::parts::{Part, load_array, store_array};
use crate::sizes::{
    ESTATE, OBJECT, OBJECT_ACCOUNT, OBJECT_REGISTRATION, PASSWORD, REGISTRATION,
    REGISTRATION_COUNT, REGISTRATION_ENTRIES, TABLE,
};
use state::{Estate, Object, Password, Registration, Table};

// A password: its word, then its mode.
impl Part for Password {
    const SIZE: usize = PASSWORD;

    ghost SIZE = { password_size };

    ghost layout = { password };

    ghost none = { no_password };

    fn load(&mut self, bytes: &[u8], at: usize) {
        self.word.load(bytes, at);
        self.mode.load(bytes, at + 8);
    }

    fn store(&self, bytes: &mut [u8], at: usize) {
        self.word.store(bytes, at);
        self.mode.store(bytes, at + 8);
    }
}

// A registration: its password, its list, the number of its entries, and the entries.
impl Part for Registration {
    const SIZE: usize = REGISTRATION;

    ghost SIZE = { registration_size };

    ghost layout = { registration };

    ghost none = { no_registration };

    fn load(&mut self, bytes: &[u8], at: usize) {
        self.password.load(bytes, at);
        self.list.load(bytes, at + 8);
        self.count.load(bytes, at + REGISTRATION_COUNT);
        load_array(&mut self.entries, bytes, at + REGISTRATION_ENTRIES);
    }

    fn store(&self, bytes: &mut [u8], at: usize) {
        self.password.store(bytes, at);
        self.list.store(bytes, at + 8);
        self.count.store(bytes, at + REGISTRATION_COUNT);
        store_array(&self.entries, bytes, at + REGISTRATION_ENTRIES);
    }
}

// An object: its base, its pages, its passwords, its registration and its account.
impl Part for Object {
    const SIZE: usize = OBJECT;

    ghost SIZE = { object_size };

    ghost layout = { object };

    ghost none = { no_object };

    fn load(&mut self, bytes: &[u8], at: usize) {
        self.base.load(bytes, at);
        self.pages.load(bytes, at + 1);
        load_array(&mut self.passwords, bytes, at + 2);
        self.registration.load(bytes, at + OBJECT_REGISTRATION);
        self.account.load(bytes, at + OBJECT_ACCOUNT);
    }

    fn store(&self, bytes: &mut [u8], at: usize) {
        self.base.store(bytes, at);
        self.pages.store(bytes, at + 1);
        store_array(&self.passwords, bytes, at + 2);
        self.registration.store(bytes, at + OBJECT_REGISTRATION);
        self.account.store(bytes, at + OBJECT_ACCOUNT);
    }
}

impl Part for Estate {
    const SIZE: usize = ESTATE;

    ghost SIZE = { estate_size };

    ghost layout = { estate };

    ghost none = { no_estate };

    fn load(&mut self, bytes: &[u8], at: usize) {
        load_array(&mut self.objects, bytes, at);
    }

    fn store(&self, bytes: &mut [u8], at: usize) {
        store_array(&self.objects, bytes, at);
    }
}

impl Part for Table {
    const SIZE: usize = TABLE;

    ghost SIZE = { table_size };

    ghost layout = { table };

    ghost none = { record { estates = [] } };

    fn load(&mut self, bytes: &[u8], at: usize) {
        load_array(&mut self.estates, bytes, at);
    }

    fn store(&self, bytes: &mut [u8], at: usize) {
        store_array(&self.estates, bytes, at);
    }
}
