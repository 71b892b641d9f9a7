// A protection domain in its image.
ghost use Rattle.layout.specs.Sizes.{capability_size, domain_size, frame_size};
ghost use Rattle.layout.specs.Layout.{capability, frame, domain};
ghost use Rattle.state.specs.Places.{no_capability, no_frame, no_domain};

use crate::parts::{Checked, Part, array_ok, load_array, store_array};
use crate::sizes::{
    CAPABILITY, DOMAIN, DOMAIN_DEPTH, DOMAIN_SAVED, FRAME, FRAME_COUNT, FRAME_LOCKED, FRAME_WHOLE,
};
use state::{Capability, Domain, Frame};

// A capability: its page, then its password.
impl Part for Capability {
    const SIZE: usize = CAPABILITY;

    ghost SIZE = { capability_size };

    ghost layout = { capability };

    ghost none = { no_capability };

    fn load(&mut self, bytes: &[u8], at: usize) {
        self.page.load(bytes, at);
        self.password.load(bytes, at + 1);
    }

    fn store(&self, bytes: &mut [u8], at: usize) {
        self.page.store(bytes, at);
        self.password.store(bytes, at + 1);
    }
}

// A frame: its slots, their number, the locked count and the whole lock.
impl Part for Frame {
    const SIZE: usize = FRAME;

    ghost SIZE = { frame_size };

    ghost layout = { frame };

    ghost none = { no_frame };

    fn load(&mut self, bytes: &[u8], at: usize) {
        load_array(&mut self.slots, bytes, at);
        self.count.load(bytes, at + FRAME_COUNT);
        self.locked.load(bytes, at + FRAME_LOCKED);
        self.whole.load(bytes, at + FRAME_WHOLE);
    }

    fn store(&self, bytes: &mut [u8], at: usize) {
        store_array(&self.slots, bytes, at);
        self.count.store(bytes, at + FRAME_COUNT);
        self.locked.store(bytes, at + FRAME_LOCKED);
        self.whole.store(bytes, at + FRAME_WHOLE);
    }
}

impl Checked for Frame {
    fn ok(bytes: &[u8], at: usize) -> bool {
        bool::ok(bytes, at + FRAME_WHOLE)
    }
}

// A domain: its frame, the saved ones and their number.
impl Part for Domain {
    const SIZE: usize = DOMAIN;

    ghost SIZE = { domain_size };

    ghost layout = { domain };

    ghost none = { no_domain };

    fn load(&mut self, bytes: &[u8], at: usize) {
        self.active.load(bytes, at);
        load_array(&mut self.saved, bytes, at + DOMAIN_SAVED);
        self.depth.load(bytes, at + DOMAIN_DEPTH);
    }

    fn store(&self, bytes: &mut [u8], at: usize) {
        self.active.store(bytes, at);
        store_array(&self.saved, bytes, at + DOMAIN_SAVED);
        self.depth.store(bytes, at + DOMAIN_DEPTH);
    }
}

impl Checked for Domain {
    fn ok(bytes: &[u8], at: usize) -> bool {
        Frame::ok(bytes, at) && array_ok::<Frame, 4>(bytes, at + DOMAIN_SAVED)
    }
}
