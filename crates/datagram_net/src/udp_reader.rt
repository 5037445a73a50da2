use crate::link::Link;
use std::alloc::Global;
use std::io;
use std::io::Read;
use std::sync::{Arc, Wait};

/// The half of a link over UDP from which is read. One that took the place of a link that didn't
/// come has ended.
#[derive(Drop)]
pub struct UdpReader<R: Wait + Drop> {
    rt: R,
    link: Option<Arc<Link, Global>>,
}

impl<R: Wait + Drop> UdpReader<R> {
    /// A half of this link, if there is one.
    pub(crate) fn new(rt: R, link: Option<Arc<Link, Global>>) -> Self {
        UdpReader { rt, link }
    }
}

impl<R: Wait + Drop> Read for UdpReader<R> {
    fn read(&mut self, buf: &mut [u8]) -> io::Result<usize> {
        let Some(link) = &self.link else {
            return Ok(0);
        };
        if buf.is_empty() {
            return Ok(0);
        }
        let guard = link.state.lock(&self.rt);
        let mut state = link
            .changed
            .wait_while(&self.rt, guard, |state| state.is_empty());
        state.read(buf)
    }
}
