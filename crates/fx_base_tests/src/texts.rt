//! The readers, at texts of their forms, at the forms' limits and past them.
use fx_base::{Ipv4, Net, NetText, PortRange, Proto};

#[test]
fn addresses(rt: HostRuntime) {
    for (text, value) in [
        ("0.0.0.0", 0),
        ("10.0.0.1", 0x0A00_0001),
        ("255.255.255.255", 0xFFFF_FFFF),
    ] {
        assert!(rt; text.len() < 100);
        let read = Ipv4::read(text.as_bytes());
        assert_eq!(rt; read.map(|address| address.0), Ok(value), "at {text}");
    }
    for (text, place) in [
        ("256.0.0.1", 2),
        ("1.2.3", 5),
        ("1.2.3.4.", 7),
        ("01.2.3.4", 1),
        ("10.0.0.01", 8),
        ("1..2.3", 2),
        ("1.2.3.4/32", 7),
        ("", 0),
    ] {
        assert!(rt; text.len() < 100);
        let fault = Ipv4::read(text.as_bytes()).err();
        assert_eq!(rt; fault.map(|bad| bad.at), Some(place), "at {text}");
    }
}

#[test]
fn nets(rt: HostRuntime) {
    for (text, value, len) in [
        ("1.2.3.4/0", 0, 0),
        ("1.2.3.4", 0x0102_0304, 32),
        ("10.1.2.3/8", 0x0A00_0000, 8),
        ("255.255.255.255/31", 0xFFFF_FFFE, 31),
    ] {
        assert!(rt; text.len() < 100);
        let Ok(NetText::V4(net)) = Net::read(text.as_bytes()) else {
            assert!(rt; false, "at {text}");
            return;
        };
        assert_eq!(rt; (net.addr.0, net.len), (value, len), "at {text}");
    }
    for text in ["fe80::/10", "1.2.3.4:"] {
        assert!(rt; text.len() < 100);
        let read = Net::read(text.as_bytes());
        assert!(rt; matches!(read, Ok(NetText::V6)), "at {text}");
    }
    for (text, place) in [
        ("1.2.3.4/33", 9),
        ("1.2.3.4/032", 9),
        ("1.2.3.4/", 8),
        ("1.2.3", 5),
        ("", 0),
    ] {
        assert!(rt; text.len() < 100);
        let fault = Net::read(text.as_bytes()).err();
        assert_eq!(rt; fault.map(|bad| bad.at), Some(place), "at {text}");
    }
}

#[test]
fn ports(rt: HostRuntime) {
    for (text, low, high) in [
        ("80", 80, 80),
        ("0", 0, 0),
        ("65535", 65535, 65535),
        ("5:5", 5, 5),
        ("80:443", 80, 443),
    ] {
        assert!(rt; text.len() < 100);
        let read = PortRange::read(text.as_bytes());
        assert_eq!(rt;
            read.map(|ports| (ports.low, ports.high)),
            Ok((low, high)),
            "at {text}"
        );
    }
    for (text, place) in [
        ("080", 1),
        ("65536", 4),
        ("10:9", 4),
        ("65535:7", 6),
        ("80:", 3),
        ("1:2:3", 3),
        ("http", 0),
        ("", 0),
    ] {
        assert!(rt; text.len() < 100);
        let fault = PortRange::read(text.as_bytes()).err();
        assert_eq!(rt; fault.map(|bad| bad.at), Some(place), "at {text}");
    }
}

#[test]
fn protocols(rt: HostRuntime) {
    for (text, number) in [
        ("icmp", 1),
        ("TCP", 6),
        ("udp", 17),
        ("ICMPv6", 58),
        ("Sctp", 132),
        ("UdpLite", 136),
    ] {
        assert!(rt; text.len() < 100);
        let read = Proto::read(text.as_bytes());
        assert_eq!(rt; read.map(|protocol| protocol.0), Ok(number), "at {text}");
    }
    for (text, place) in [("icmpv", 5), ("tcpx", 3), ("udpl", 4), ("6", 0), ("", 0)] {
        assert!(rt; text.len() < 100);
        let fault = Proto::read(text.as_bytes()).err();
        assert_eq!(rt; fault.map(|bad| bad.at), Some(place), "at {text}");
    }
}
