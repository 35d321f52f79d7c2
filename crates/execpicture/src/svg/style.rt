//! How the parts of a picture look, on light ground and on dark ground.

/// The rules of the style, by the classes of the parts: `t0` to `t7` and `k0` to `k7` are the colours of the tasks.
pub(super) const STYLE: &str = "\
.run text{font-family:Inter,Helvetica,Arial,sans-serif}.run .strong{font-weight:600}.run .wide{letter-spacing:1.2px}.run .slant{font-style:italic}\n\
.run .pale{fill-opacity:.22}.run .thin{stroke-width:.8}.run .ringed{stroke:#ffffff;stroke-width:3px;paint-order:stroke}.run .none{fill:none}.run .middle{text-anchor:middle}.run .end{text-anchor:end}\n\
.run .at{fill:transparent}.run .ground{fill:#ffffff}.run .ink{fill:#1f2430}.run .soft{fill:#525b68}.run .faint{fill:#78828f}\n\
.run .grid{stroke:#e3e7ec}.run .line{stroke:#1f2430}.run .rest{stroke:#78828f}.run .halo{stroke:#ffffff}\n\
.run .tick{fill:#eef1f5}.run .irq{fill:#fbf1e0}.run .on{fill:#ffffff}\n\
.run .stop{fill:#a3281a}.run .stops{stroke:#a3281a}.run .time{fill:#0b7285}.run .times{stroke:#0b7285}.run .wait{fill:#d8eef2}\n\
.run .mail{fill:#e8a33d;stroke:#8a5a10}.run .post{fill:#7a4e0c}\n\
.run .t0{fill:#2f6db3}.run .k0{stroke:#2f6db3}\n\
.run .t1{fill:#b84a1f}.run .k1{stroke:#b84a1f}\n\
.run .t2{fill:#1f7d5c}.run .k2{stroke:#1f7d5c}\n\
.run .t3{fill:#7450b0}.run .k3{stroke:#7450b0}\n\
.run .t4{fill:#8a6a10}.run .k4{stroke:#8a6a10}\n\
.run .t5{fill:#2a7a96}.run .k5{stroke:#2a7a96}\n\
.run .t6{fill:#b03a6b}.run .k6{stroke:#b03a6b}\n\
.run .t7{fill:#55606e}.run .k7{stroke:#55606e}\n\
@media (prefers-color-scheme:dark){\n\
.run .ringed{stroke:#14171c}\n\
.run .ground{fill:#14171c}.run .ink{fill:#e8ebf0}.run .soft{fill:#b3bbc6}.run .faint{fill:#8c96a3}\n\
.run .grid{stroke:#2b323b}.run .line{stroke:#e8ebf0}.run .rest{stroke:#8c96a3}.run .halo{stroke:#14171c}\n\
.run .tick{fill:#1f252d}.run .irq{fill:#2e2718}.run .on{fill:#10131a}\n\
.run .stop{fill:#ff9a8a}.run .stops{stroke:#ff9a8a}.run .time{fill:#63c7da}.run .times{stroke:#63c7da}.run .wait{fill:#173740}\n\
.run .mail{fill:#e8a33d;stroke:#f2c67c}.run .post{fill:#f2c67c}\n\
.run .t0{fill:#78aef0}.run .k0{stroke:#78aef0}\n\
.run .t1{fill:#f08a5f}.run .k1{stroke:#f08a5f}\n\
.run .t2{fill:#55c79e}.run .k2{stroke:#55c79e}\n\
.run .t3{fill:#b49af0}.run .k3{stroke:#b49af0}\n\
.run .t4{fill:#d9b64a}.run .k4{stroke:#d9b64a}\n\
.run .t5{fill:#6cc3df}.run .k5{stroke:#6cc3df}\n\
.run .t6{fill:#f08ab5}.run .k6{stroke:#f08ab5}\n\
.run .t7{fill:#a8b4c2}.run .k7{stroke:#a8b4c2}\n\
}\n\
";
