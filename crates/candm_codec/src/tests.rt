use super::*;
use chrony_fraction::Packed;

// A reply of the bound 244,142 ns.
const REPLY: [u8; 104] = [
    0x06, 0x02, 0x00, 0x00, 0x00, 0x21, 0x00, 0x05, 0x00, 0x00, 0x00, 0x00, 0x00, 0x00, 0x00, 0x00,
    0x00, 0x00, 0x00, 0x01, 0x00, 0x00, 0x00, 0x00, 0x00, 0x00, 0x00, 0x00, 0xa9, 0xfe, 0xa9, 0x7b,
    0xa9, 0xfe, 0xa9, 0x7b, 0x00, 0x00, 0x00, 0x00, 0x00, 0x00, 0x00, 0x00, 0x00, 0x00, 0x00, 0x00,
    0x00, 0x01, 0x00, 0x00, 0x00, 0x04, 0x00, 0x00, 0x00, 0x00, 0x00, 0x00, 0x65, 0x00, 0x00, 0x00,
    0x00, 0x00, 0x00, 0x00, 0xf7, 0xff, 0xff, 0xff, 0x00, 0x00, 0x00, 0x00, 0x00, 0x00, 0x00, 0x00,
    0x00, 0x00, 0x00, 0x00, 0x00, 0x00, 0x00, 0x00, 0x00, 0x00, 0x00, 0x00, 0xec, 0x80, 0x00, 0x00,
    0xea, 0x80, 0x00, 0x00, 0x00, 0x00, 0x00, 0x00,
];

// What it tells.
fn tracking() -> Tracking {
    Tracking {
        sequence: 1,
        ref_id: 0xa9fe_a97b,
        address: 0xa9fe_a97b_0000_0000_0000_0000_0000_0000,
        family: 1,
        stratum: 4,
        leap: Leap::Normal,
        ref_time: RefTime {
            high: 0,
            low: 0x6500_0000,
            nsec: 0,
        },
        current_correction: Packed(0xf7ff_ffff),
        last_offset: Packed(0),
        rms_offset: Packed(0),
        freq_ppm: Packed(0),
        resid_freq_ppm: Packed(0),
        skew_ppm: Packed(0),
        root_delay: Packed(0xec80_0000),
        root_dispersion: Packed(0xea80_0000),
        last_update_interval: Packed(0),
    }
}

#[test]
fn a_reply_is_read(rt: HostRuntime) {
    assert_eq!(rt; read_reply(&REPLY), Ok(tracking()));
}

#[test]
fn a_reply_with_one_byte_changed(rt: HostRuntime) {
    for (place, byte, want) in [
        (0, 0x05, Err(ReplyFault::Version)),
        (1, 0x01, Err(ReplyFault::PacketType)),
        (5, 0x22, Err(ReplyFault::Command)),
        (7, 0x01, Err(ReplyFault::NotTracking)),
        (9, 0x02, Err(ReplyFault::Status(2))),
        (55, 0x04, Err(ReplyFault::Leap(4))),
        (2, 0xff, Ok(tracking())),
    ] {
        let mut bytes = REPLY;
        bytes[place] = byte;
        assert_eq!(rt; read_reply(&bytes), want, "byte {place} as {byte}");
    }
}

#[test]
fn a_reply_of_another_length(rt: HostRuntime) {
    let mut longer = [0; 120];
    longer[..104].copy_from_slice(&REPLY);
    for (message, bytes, want) in [
        ("a header", &REPLY[..27], Err(ReplyFault::Short)),
        ("one byte short", &REPLY[..103], Err(ReplyFault::Short)),
        ("16 bytes more", &longer[..], Ok(tracking())),
    ] {
        assert_eq!(rt; read_reply(bytes), want, "{message}");
    }
}

#[test]
fn a_reply_is_written_as_it_was_read(rt: HostRuntime) {
    assert_eq!(rt; write_reply(&tracking()), REPLY);
    for leap in [Leap::Insert, Leap::Delete, Leap::Unsynchronised] {
        let told = Tracking { leap, ..tracking() };
        assert_eq!(rt; read_reply(&write_reply(&told)), Ok(told), "{leap:?}");
    }
}

#[test]
fn a_request_is_written_and_read(rt: HostRuntime) {
    let mut want = [0; 104];
    want[..12].copy_from_slice(&[
        0x06, 0x01, 0x00, 0x00, 0x00, 0x21, 0x00, 0x01, 0x00, 0x00, 0x00, 0x05,
    ]);
    let bytes = write_request(5, 1);
    assert_eq!(rt; bytes, want);
    assert_eq!(rt;
        read_request(&bytes),
        Ok(Request {
            sequence: 5,
            attempt: 1
        })
    );
    assert_eq!(rt; read_request(&bytes[..103]), Err(RequestFault::Short));
}

#[test]
fn a_request_with_one_byte_changed(rt: HostRuntime) {
    for (place, byte, fault) in [
        (0, 0x05, RequestFault::Version),
        (1, 0x02, RequestFault::PacketType),
        (5, 0x22, RequestFault::Command),
    ] {
        let mut bytes = write_request(5, 1);
        bytes[place] = byte;
        assert_eq!(rt; read_request(&bytes), Err(fault), "byte {place} as {byte}");
    }
}

#[test]
fn the_front_of_a_message_is_short(rt: HostRuntime) {
    let request = write_request(5, 1);
    for length in 0..104 {
        let (reply, _) = REPLY.split_at(length);
        let (request, _) = request.split_at(length);
        assert_eq!(rt; read_reply(reply), Err(ReplyFault::Short), "{length} bytes");
        assert_eq!(rt;
            read_request(request),
            Err(RequestFault::Short),
            "{length} bytes"
        );
    }
}

#[test]
fn a_reply_with_one_byte_set_to_255(rt: HostRuntime) {
    let faults = [
        (0, ReplyFault::Version),
        (1, ReplyFault::PacketType),
        (4, ReplyFault::Command),
        (5, ReplyFault::Command),
        (6, ReplyFault::NotTracking),
        (7, ReplyFault::NotTracking),
        (8, ReplyFault::Status(65_280)),
        (9, ReplyFault::Status(255)),
        (54, ReplyFault::Leap(65_280)),
        (55, ReplyFault::Leap(255)),
    ];
    for place in 0..104 {
        let mut bytes = REPLY;
        bytes[place] = 255;
        let want = faults
            .iter()
            .find(|(at, _)| *at == place)
            .map(|(_, fault)| *fault);
        assert_eq!(rt; read_reply(&bytes).err(), want, "byte {place}");
    }
}

#[test]
fn an_uncounted_request_is_the_one_of_chronyc(rt: HostRuntime) {
    for sequence in [0, 1, 0x0102_0304, u32::MAX] {
        let mut want = [0; 104];
        want[..8].copy_from_slice(&[0x06, 0x01, 0x00, 0x00, 0x00, 0x21, 0x00, 0x00]);
        want[8..12].copy_from_slice(&sequence.to_be_bytes());
        assert_eq!(rt; write_request(sequence, 0), want, "sequence {sequence}");
    }
}
