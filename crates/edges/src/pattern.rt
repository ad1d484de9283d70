// What a lent buffer holds before a call: no zeros, so that a zero that is stored is seen too.

pub(crate) fn bytes(out: &mut [u8]) {
    for (i, byte) in out.iter_mut().enumerate() {
        *byte = (i % 251 + 1) as u8;
    }
}
